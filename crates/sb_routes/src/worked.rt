// Paths and their routes, worked out by hand.
ghost use Rattle.std.specs.Prelude.{◌≡◌, codes, Some, None};
ghost use Rattle.sb_machine.specs.declared.call.Part.TheVariants.{Main, Dead};
ghost use Rattle.sb_routes.specs.declared.routes.Address.TheVariants.{Entity, Subscription};
ghost use Rattle.sb_routes.specs.declared.routes.Route.TheVariants.{Messages, Head, Deferred, Locked, Scheduled, Script, Together};
ghost use Rattle.sb_routes.specs.declared.routes.Route.TheVariants.{NextSession, NamedSession, HeldSession, SessionState, SessionHead, SessionDeferred, SessionLocked};
ghost use Rattle.sb_routes.specs.declared.routes.Route.TheVariants.{Health, Status, Metrics, Peek, Page};
ghost use Rattle.sb_routes.specs.Routes.{route_of};
ghost use Rattle.sb_routes.specs.Paths.{path_of, query_of, segment};

/// The definitions say of these paths what was worked out by hand.
pub fn worked_routes()
    ensures send { route_of (codes "/Q/messages") ≡ Some Messages }
    ensures head { route_of (codes "/q/messages/head") ≡ Some (Head (Entity Main)) }
    ensures deferred { route_of (codes "/q/messages/7") ≡ Some (Deferred (Entity Main)) }
    ensures locked { route_of (codes "/q/messages/7/x") ≡ Some (Locked (Entity Main)) }
    ensures scheduled { route_of (codes "/Q/Scheduled/7") ≡ Some (Scheduled (Entity Main)) }
    ensures no_number { route_of (codes "/q/scheduled") ≡ None }
    ensures next { route_of (codes "/q/Sessions/head") ≡ Some (NextSession (Entity Main)) }
    ensures named_head { route_of (codes "/q/sessions/%68ead") ≡ Some (NamedSession (Entity Main)) }
    ensures held_head { route_of (codes "/q/sessions/head/x") ≡ Some (HeldSession (Entity Main)) }
    ensures state { route_of (codes "/q/sessions/a/x/state") ≡ Some (SessionState (Entity Main)) }
    ensures session_head { route_of (codes "/t/subscriptions/q/sessions/a/x/messages/head") ≡ Some (SessionHead (Subscription Main)) }
    ensures session_deferred { route_of (codes "/q/%24deadletterqueue/sessions/a/x/messages/7") ≡ Some (SessionDeferred (Entity Dead)) }
    ensures session_locked { route_of (codes "/q/sessions/a/x/messages/7/y") ≡ Some (SessionLocked (Entity Main)) }
    ensures script { route_of (codes "/$script") ≡ Some Script }
    ensures plain_script { route_of (codes "/Script") ≡ Some Script }
    ensures together { route_of (codes "/$Together") ≡ Some Together }
    ensures health { route_of (codes "/$Health") ≡ Some Health }
    ensures status { route_of (codes "/%24status") ≡ Some Status }
    ensures metrics { route_of (codes "/$metrics") ≡ Some Metrics }
    ensures peek { route_of (codes "/$PEEK") ≡ Some Peek }
    ensures page { route_of (codes "/$page") ≡ Some Page }
    ensures none { route_of (codes "/x/y/z") ≡ None }
    ensures path { path_of (codes "/q?a=1?b") ≡ codes "/q" }
    ensures query { query_of (codes "/q?a=1?b") ≡ codes "a=1?b" }
    ensures name { segment 1 (codes "/Q/messages") ≡ codes "Q" }
{}
