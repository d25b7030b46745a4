// Texts, worked through with the definitions alone.
ghost use Rattle.std.specs.Prelude.{◌≡◌, codes, Some, None};
ghost use Rattle.sb_machine.specs.declared.call.Part.TheVariants as part;
ghost use Rattle.sb_names.specs.Addresses.{address_in, address_of};
ghost use Rattle.sb_names.specs.Worked.{entity_part, subscription_part};

/// Which addresses some texts are.
pub fn worked_addresses()
    ensures entity { address_in (codes "Orders-1") ≡ Some (entity_part (codes "orders-1") part.Main) }
    ensures dead { address_in (codes "q/$DeadLetterQueue") ≡ Some (entity_part (codes "q") part.Dead) }
    ensures transfer { address_in (codes "q/$Transfer/$deadletterqueue") ≡ Some (entity_part (codes "q") part.Transfer) }
    ensures subscription { address_in (codes "T/Subscriptions/S.2") ≡ Some (subscription_part (codes "t") (codes "s.2") part.Main) }
    ensures subscription_dead { address_in (codes "t/subscriptions/s/$deadletterqueue") ≡ Some (subscription_part (codes "t") (codes "s") part.Dead) }
    ensures subscription_transfer { address_in (codes "t/subscriptions/s/$transfer/$deadletterqueue") ≡ Some (subscription_part (codes "t") (codes "s") part.Transfer) }
    ensures empty { address_in (codes "") ≡ None }
    ensures slash { address_in (codes "q/") ≡ None }
    ensures other_part { address_in (codes "q/$transfer") ≡ None }
    ensures bad_name { address_in (codes "q!/$deadletterqueue") ≡ None }
    ensures no_subscription { address_in (codes "t/subscriptions/") ≡ None }
    ensures behind { address_in (codes "t/subscriptions/s/x") ≡ None }
    ensures left { address_of (codes "t/Subscriptions/") ≡ entity_part (codes "t/subscriptions/") part.Main }
{}
