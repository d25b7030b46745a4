// Laws of filters and of actions: each a function without effect whose contract is a statement of
// specs/FilterFaults or specs/Orders.
ghost use Rattle.sb_model.specs.FilterFaults.{FiltersFailOnlySo};
ghost use Rattle.sb_model.specs.Orders.{ActionsKeepMessages};

/// On no message does a filter fail by more than Overflow, DivideByZero or NoSystemProperty.
pub fn filters_fail_only_so()
    ensures { FiltersFailOnlySo }
{}

/// An action changes a message's properties alone, keeps their order, and leaves no more than a
/// message may have.
pub fn actions_keep_messages()
    ensures { ActionsKeepMessages }
{}
