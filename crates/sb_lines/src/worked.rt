// Lines and their calls, worked out by hand.
ghost use Rattle.std.specs.Prelude.{◌≡◌, codes, [], ◌∷◌, Some, None, Err};
ghost use Rattle.sb_machine.specs.declared.look.Look.TheVariants as look;
ghost use Rattle.sb_machine.specs.declared.look.View.TheVariants as seen;
ghost use Rattle.sb_machine.specs.declared.reply.PartRefusal.TheVariants as why;
ghost use Rattle.sb_machine.specs.declared.reply.Refusal.TheVariants.{ClientNotFound};
ghost use Rattle.sb_lines.specs.Faults.{bad_key};
ghost use Rattle.sb_lines.specs.declared.form.Form.TheVariants.{Plain, Amqp};
ghost use Rattle.sb_lines.specs.Lines.{line_of};
ghost use Rattle.sb_lines.specs.Replies.{answer_line};
ghost use Rattle.sb_lines.specs.Worked.{receives, accepts, q, eu, looks_at, line_of_view, orders_shown, forwarding, dear_things, correlated, asks_for_rule, waiting_session, open_transactions, forgets, ops_forgets, two_clients, acts_together, sends_nothing, line_of_replies, three_replies, line_of_part};

/// The definitions say of these lines how long they wait, as was worked out by hand.
pub fn worked_waits()
    ensures absent { line_of (codes "{\"do\":\"receive\",\"from\":\"q\"}") ≡ receives Plain 0 }
    ensures none { line_of (codes "{\"do\":\"receive\",\"from\":\"q\",\"wait\":0}") ≡ receives Plain 0 }
    ensures hour { line_of (codes "{\"wait\":3600,\"do\":\"receive\",\"from\":\"q\",\"form\":\"amqp\"}") ≡ receives Amqp 3600 }
    ensures session { line_of (codes "{\"do\":\"accept\",\"from\":\"q\",\"wait\":1}") ≡ accepts 1 }
    ensures too_long { line_of (codes "{\"do\":\"receive\",\"from\":\"q\",\"wait\":3601}") ≡ Err (bad_key None (codes "wait")) }
    ensures below { line_of (codes "{\"do\":\"accept\",\"from\":\"q\",\"wait\":-1}") ≡ Err (bad_key None (codes "wait")) }
    ensures words { line_of (codes "{\"do\":\"receive\",\"from\":\"q\",\"wait\":\"1\"}") ≡ Err (bad_key None (codes "wait")) }
    ensures behind_form { line_of (codes "{\"do\":\"receive\",\"from\":\"q\",\"wait\":-1,\"form\":\"x\"}") ≡ Err (bad_key None (codes "form")) }
    ensures before_at { line_of (codes "{\"do\":\"receive\",\"from\":\"q\",\"wait\":-1,\"at\":-1}") ≡ Err (bad_key None (codes "wait")) }
    ensures unknown { line_of (codes "{\"do\":\"peek\",\"wait\":1}") ≡ Err (bad_key None (codes "wait")) }
{}

/// The definitions say of these lines what an operator looks at.
pub fn worked_looks()
    ensures all { line_of (codes "{\"do\":\"list\",\"count\":10}") ≡ looks_at (look.Entities None None 10) }
    ensures some { line_of (codes "{\"do\":\"list\",\"prefix\":\"N\",\"after\":\"News/subscriptions/eu\",\"count\":1}") ≡ looks_at (look.Entities (Some (codes "n")) (Some eu) 1) }
    ensures part { line_of (codes "{\"do\":\"list\",\"after\":\"q/$deadletterqueue\",\"count\":1}") ≡ Err (bad_key None (codes "after")) }
    ensures uncounted { line_of (codes "{\"do\":\"list\",\"prefix\":\"n\"}") ≡ Err (bad_key None (codes "count")) }
    ensures described { line_of (codes "{\"do\":\"describe\",\"entity\":\"q\"}") ≡ looks_at (look.Entity q) }
    ensures sessions { line_of (codes "{\"do\":\"sessions\",\"entity\":\"q\",\"after\":\"s1\",\"count\":2}") ≡ looks_at (look.Sessions q (Some (codes "s1")) 2) }
    ensures transactions { line_of (codes "{\"do\":\"transactions\"}") ≡ looks_at look.Transactions }
    ensures unknown { line_of (codes "{\"do\":\"transactions\",\"count\":1}") ≡ Err (bad_key None (codes "count")) }
    ensures unnumbered { line_of (codes "{\"do\":\"transactions\",\"client\":\"c\",\"number\":1}") ≡ Err (bad_key None (codes "client")) }
{}

/// The definitions show these in these lines; a rule that is shown is one that a line may ask for.
pub fn worked_views()
    ensures entities { line_of_view (seen.Entities (orders_shown ∷ [])) ≡ codes "{\"entities\":[{\"address\":\"orders\",\"dead\":{\"deferred\":0,\"held\":0,\"oldest\":null,\"ready\":0,\"scheduled\":0},\"held_sessions\":0,\"kind\":\"queue\",\"main\":{\"deferred\":0,\"held\":1,\"oldest\":5,\"ready\":2,\"scheduled\":0},\"sessions\":0,\"transfer\":{\"deferred\":0,\"held\":0,\"oldest\":null,\"ready\":0,\"scheduled\":0}}],\"ok\":\"list\"}\n" }
    ensures queue { line_of_view forwarding ≡ codes "{\"description\":{\"dead_on_expiry\":false,\"forward_to\":\"bills\",\"lock\":30,\"max_delivery\":10,\"requires_session\":false},\"forwards\":[{\"field\":\"forward_to\",\"there\":true}],\"kind\":\"queue\",\"ok\":\"description\",\"rules\":[]}\n" }
    ensures subscription { line_of_view dear_things ≡ codes "{\"description\":{\"dead_on_expiry\":false,\"dead_on_fault\":true,\"lock\":30,\"max_delivery\":10,\"requires_session\":false},\"forwards\":[],\"kind\":\"subscription\",\"ok\":\"description\",\"rules\":[{\"action\":\"SET a = 1\",\"filter\":\"a > 1\",\"name\":\"dear\"}]}\n" }
    ensures correlation { line_of_view correlated ≡ codes "{\"description\":{\"dead_on_expiry\":false,\"dead_on_fault\":true,\"lock\":60,\"max_delivery\":10,\"requires_session\":false},\"forwards\":[],\"kind\":\"subscription\",\"ok\":\"description\",\"rules\":[{\"correlation\":{\"props\":{\"a\":1,\"b\":true},\"sys\":{\"Label\":\"l\",\"To\":\"t\"}},\"name\":\"r\"}]}\n" }
    ensures read_back { line_of (codes "{\"do\":\"create-rule\",\"topic\":\"t\",\"subscription\":\"s\",\"name\":\"r\",\"correlation\":{\"props\":{\"a\":1,\"b\":true},\"sys\":{\"Label\":\"l\",\"To\":\"t\"}}}") ≡ asks_for_rule }
    ensures sessions { line_of_view (seen.Sessions (waiting_session ∷ [])) ≡ codes "{\"ok\":\"sessions\",\"sessions\":[{\"id\":\"s1\",\"ready\":2,\"state_bytes\":0,\"until\":null}]}\n" }
    ensures transactions { line_of_view (seen.Transactions open_transactions) ≡ codes "{\"ok\":\"transactions\",\"transactions\":[{\"deadline\":120000,\"entity\":\"orders\",\"operations\":2,\"txn\":1},{\"deadline\":120001,\"entity\":null,\"operations\":0,\"txn\":2}]}\n" }
{}

/// The definitions say of these lines that clients are looked at or forgotten, and show them so.
pub fn worked_clients()
    ensures first { line_of (codes "{\"do\":\"clients\",\"count\":10}") ≡ looks_at (look.Clients None 10) }
    ensures behind { line_of (codes "{\"do\":\"clients\",\"after\":\"Shop-1\",\"count\":1}") ≡ looks_at (look.Clients (Some (codes "Shop-1")) 1) }
    ensures uncounted { line_of (codes "{\"do\":\"clients\",\"after\":\"shop-1\"}") ≡ Err (bad_key None (codes "count")) }
    ensures after_first { line_of (codes "{\"do\":\"clients\",\"after\":1}") ≡ Err (bad_key None (codes "after")) }
    ensures unnumbered { line_of (codes "{\"do\":\"clients\",\"count\":1,\"client\":\"c\",\"number\":1}") ≡ Err (bad_key None (codes "client")) }
    ensures forget { line_of (codes "{\"do\":\"forget-client\",\"name\":\"shop-7\"}") ≡ forgets }
    ensures numbered { line_of (codes "{\"do\":\"forget-client\",\"name\":\"shop-7\",\"client\":\"ops\",\"number\":3,\"at\":5}") ≡ ops_forgets }
    ensures nameless { line_of (codes "{\"do\":\"forget-client\"}") ≡ Err (bad_key None (codes "name")) }
    ensures unknown { line_of (codes "{\"do\":\"forget-client\",\"name\":\"shop-7\",\"count\":1}") ≡ Err (bad_key None (codes "count")) }
    ensures shown { line_of_view (seen.Clients two_clients) ≡ codes "{\"clients\":[{\"client\":\"shop-7\",\"number\":12},{\"client\":\"shop-8\",\"number\":1}],\"ok\":\"clients\"}\n" }
    ensures none { line_of_view (seen.Clients []) ≡ codes "{\"clients\":[],\"ok\":\"clients\"}\n" }
    ensures refused { answer_line Plain (Err ClientNotFound) ≡ codes "{\"refused\":\"ClientNotFound\"}\n" }
{}

/// The definitions say of these lines which operations act together, and tell so what became of them.
pub fn worked_together()
    ensures none { line_of (codes "{\"do\":\"together\",\"entity\":\"q\",\"operations\":[]}") ≡ acts_together [] }
    ensures two { line_of (codes "{\"do\":\"together\",\"entity\":\"q\",\"operations\":[{\"do\":\"send\",\"to\":\"q\",\"messages\":[]},{\"do\":\"send\",\"to\":\"q\",\"messages\":[]}]}") ≡ acts_together (sends_nothing ∷ sends_nothing ∷ []) }
    ensures other_entity { line_of (codes "{\"do\":\"together\",\"entity\":\"q/$deadletterqueue\",\"operations\":1}") ≡ Err (bad_key None (codes "entity")) }
    ensures left_out { line_of (codes "{\"do\":\"together\",\"entity\":\"q\"}") ≡ Err (bad_key None (codes "operations")) }
    ensures no_list { line_of (codes "{\"do\":\"together\",\"entity\":\"q\",\"operations\":{\"do\":\"send\",\"to\":\"q\",\"messages\":[]}}") ≡ Err (bad_key None (codes "operations")) }
    ensures no_object { line_of (codes "{\"do\":\"together\",\"entity\":\"q\",\"operations\":[1]}") ≡ Err (bad_key (Some 0) (codes "operations")) }
    ensures wordless { line_of (codes "{\"do\":\"together\",\"entity\":\"q\",\"operations\":[{\"to\":\"q\",\"messages\":[]}]}") ≡ Err (bad_key (Some 0) (codes "operations")) }
    ensures other_act { line_of (codes "{\"do\":\"together\",\"entity\":\"q\",\"operations\":[{\"do\":\"receive\",\"from\":\"q\"}]}") ≡ Err (bad_key (Some 0) (codes "operations")) }
    ensures within { line_of (codes "{\"do\":\"together\",\"entity\":\"q\",\"operations\":[{\"do\":\"send\",\"to\":\"q\"}]}") ≡ Err (bad_key (Some 0) (codes "messages")) }
    ensures first { line_of (codes "{\"do\":\"together\",\"entity\":\"q\",\"operations\":[{\"do\":\"send\",\"to\":\"q\",\"messages\":[]},{\"do\":\"session-set\"},{\"do\":\"receive\"}]}") ≡ Err (bad_key (Some 1) (codes "from")) }
    ensures in_transaction { line_of (codes "{\"do\":\"together\",\"entity\":\"q\",\"operations\":[{\"do\":\"send\",\"to\":\"q\",\"messages\":[],\"txn\":1}]}") ≡ Err (bad_key (Some 0) (codes "txn")) }
    ensures numbered { line_of (codes "{\"do\":\"together\",\"entity\":\"q\",\"operations\":[{\"do\":\"complete\",\"client\":\"c\",\"number\":1,\"from\":\"q\"}]}") ≡ Err (bad_key (Some 0) (codes "client")) }
    ensures timed { line_of (codes "{\"do\":\"together\",\"entity\":\"q\",\"operations\":[{\"at\":1,\"do\":\"dead-letter\",\"from\":\"q\"}]}") ≡ Err (bad_key (Some 0) (codes "at")) }
    ensures unknown { line_of (codes "{\"do\":\"together\",\"entity\":\"q\",\"operations\":1,\"txn\":1}") ≡ Err (bad_key None (codes "txn")) }
    ensures told { line_of_replies three_replies ≡ codes "{\"ok\":\"together\",\"replies\":[{\"ok\":\"done\"},{\"numbers\":[3,null],\"ok\":\"sent\"},{\"numbers\":[],\"ok\":\"sent\"}]}\n" }
    ensures lost { line_of_part 2 why.LockLost ≡ codes "{\"part\":2,\"refused\":\"LockLost\"}\n" }
    ensures bad_field { line_of_part 0 (why.BadCall (codes "seq")) ≡ codes "{\"key\":\"seq\",\"part\":0,\"refused\":\"BadCall\"}\n" }
    ensures pending { line_of_part 1 (why.TxnPending 3) ≡ codes "{\"part\":1,\"refused\":\"TxnPending\",\"txn\":3}\n" }
    ensures large { line_of_part 0 (why.TooLarge 262145) ≡ codes "{\"part\":0,\"refused\":\"TooLarge\",\"size\":262145}\n" }
{}
