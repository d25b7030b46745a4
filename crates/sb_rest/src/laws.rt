// What holds of all texts and methods.
ghost use Rattle.std.specs.Prelude.{◌≡◌, ℕ, List, true, nat_le};
ghost use Rattle.std.specs.List.{list_all};
ghost use Rattle.sb_rest.specs.Calls.{HealthIsOpen, MethodsAreAll, NoneIsForeign, NoneIsKeyless};
ghost use Rattle.sb_rest.specs.Escapes.{ascii_json};

/// JSON that is escaped has no character beyond ASCII, and no U+007F.
pub fn escaped_is_ascii()
    ensures { (text : List ℕ) → list_all (λ b. nat_le b 126) (ascii_json text) ≡ true }
{}

/// Each route takes just the methods that are told of it.
pub fn methods_are_told()
    ensures { MethodsAreAll }
{}

/// What a page of another origin has a browser send is no call.
pub fn foreign_is_no_call()
    ensures { NoneIsForeign }
{}

/// What doesn't show the key where one is asked for is no call.
pub fn keyless_is_no_call()
    ensures { NoneIsKeyless }
{}

/// Without the key there is one call alone: whether the namespace acts.
pub fn health_is_open()
    ensures { HealthIsOpen }
{}
