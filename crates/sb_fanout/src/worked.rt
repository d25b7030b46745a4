// Rules and deliveries worked through with the definitions alone.
ghost use Rattle.std.specs.Prelude.{◌≡◌, [], ◌∷◌, codes, true, false};
ghost use Rattle.sb_machine.specs.Namespace.{empty_leaf};
ghost use Rattle.sb_machine.specs.Reasons.{for_reason};
ghost use Rattle.sb_machine.specs.Selection.{selected};
ghost use Rattle.sb_machine.specs.Visits.{visits, stays, ends};
ghost use Rattle.sb_machine.specs.declared.call.Part.TheVariants.{Main, Dead, Transfer};
ghost use Rattle.sb_machine.specs.declared.change.Cause.TheVariants as cause;
ghost use Rattle.sb_machine.specs.declared.reason.DeadReason.TheVariants as reason;
ghost use Rattle.sb_machine.specs.declared.rule.Outcome.TheVariants as outcome;
ghost use Rattle.sb_fanout.specs.WorkedDelivery as rows;
ghost use Rattle.sb_fanout.specs.WorkedRules as rules;

/// All rules without action give one copy, each with an action one of its own; a rule that fails
/// decides, and one that isn't true can't fail by its action; unknown isn't true; a correlation
/// filter asks for equal values of one kind.
pub fn selection_rows()
    ensures five { selected true rules.five_rules rules.plain ≡ outcome.Copies (rules.plain ∷ rules.by_rule (codes "d") 1 ∷ rules.by_rule (codes "e") 2 ∷ []) }
    ensures dead { rules.taken_by true rules.failing ≡ outcome.Dead }
    ensures dropped { rules.taken_by false rules.failing ≡ outcome.Dropped }
    ensures not_acting { selected true (rules.not_acting ∷ []) rules.plain ≡ outcome.Copies [] }
    ensures acting { selected true (rules.acting (codes "r") (codes "SET x = 1/0") ∷ []) rules.plain ≡ outcome.Dead }
    ensures unknown { rules.taken_by true (codes "color <> 'red'") ≡ outcome.Copies [] }
    ensures not_unknown { rules.taken_by true (codes "NOT (color = 'red')") ≡ outcome.Copies [] }
    ensures null { rules.taken_by true (codes "color IS NULL") ≡ outcome.Copies (rules.plain ∷ []) }
    ensures correlated { rules.asked (rules.answering (codes "l") 1) ≡ outcome.Copies (rules.answering (codes "l") 1 ∷ []) }
    ensures other_label { rules.asked (rules.answering (codes "L") 1) ≡ outcome.Copies [] }
    ensures other_number { rules.asked (rules.answering (codes "l") 2) ≡ outcome.Copies [] }
    ensures other_kind { rules.asked rules.by_text ≡ outcome.Copies [] }
    ensures not_there { rules.asked rules.plain ≡ outcome.Copies [] }
{}

/// A topic's copies; a rule that fails; five forwards, the last of which isn't made; dead letters
/// that come back until they may not be forwarded again.
pub fn delivery_rows()
    ensures five { rows.leaves rows.fan_of_five ≡ (rows.leaf_with 1 [], empty_leaf, empty_leaf) ∷ (rows.leaf_with 3 (rows.copy_of 1 1 7 0 rules.plain ∷ rows.copy_of 2 1 7 0 (rules.by_rule (codes "d") 1) ∷ rows.copy_of 3 1 7 0 (rules.by_rule (codes "e") 2) ∷ []), empty_leaf, empty_leaf) ∷ [] }
    ensures dead { rows.leaves (rows.fan_to_failing true) ≡ (rows.leaf_with 1 [], empty_leaf, empty_leaf) ∷ (rows.leaf_with 1 [], rows.leaf_with 1 (rows.copy_of 1 1 7 0 (for_reason reason.RuleFailed rules.plain) ∷ []), empty_leaf) ∷ [] }
    ensures dropped { rows.leaves (rows.fan_to_failing false) ≡ (rows.leaf_with 1 [], empty_leaf, empty_leaf) ∷ (empty_leaf, empty_leaf, empty_leaf) ∷ [] }
    ensures six { rows.leaves (rows.entered 7 rows.first_of_six (rows.starting rows.six)) ≡ (rows.leaf_with 1 [], empty_leaf, empty_leaf) ∷ (rows.leaf_with 1 [], empty_leaf, empty_leaf) ∷ (rows.leaf_with 1 [], empty_leaf, empty_leaf) ∷ (rows.leaf_with 1 [], empty_leaf, empty_leaf) ∷ (rows.leaf_with 1 [], empty_leaf, rows.leaf_with 1 (rows.copy_of 1 1 7 4 (for_reason reason.TooManyHops rules.plain) ∷ [])) ∷ (empty_leaf, empty_leaf, empty_leaf) ∷ [] }
    ensures fifth { rows.leaves rows.after_4 ≡ (rows.leaf_with 5 (rows.copy_of 5 1 4000 4 (rows.living 1 (for_reason reason.Expired rules.plain)) ∷ []), empty_leaf, empty_leaf) ∷ [] }
    ensures sixth { rows.leaves (rows.swept 5000 rows.after_4) ≡ (rows.leaf_with 5 [], empty_leaf, rows.leaf_with 1 (rows.copy_of 1 1 5000 4 (rows.living 1 (for_reason reason.TooManyHops rules.plain)) ∷ [])) ∷ [] }
    ensures nowhere { rows.leaves (rows.handed_on 7 rows.queue (codes "x") (rows.starting (rows.queue ∷ []))) ≡ (empty_leaf, empty_leaf, rows.leaf_with 1 (rows.copy_of 1 1 7 0 (for_reason reason.NoDestination rules.plain) ∷ [])) ∷ [] }
    ensures somewhere { rows.leaves (rows.handed_on 7 rows.queue (codes "q") (rows.starting (rows.queue ∷ []))) ≡ (rows.leaf_with 1 (rows.copy_of 1 1 7 1 rules.plain ∷ []), empty_leaf, empty_leaf) ∷ [] }
{}

/// Subscriptions are visited by name, and each cuts the time to live of its own copy; topics that
/// forward to each other end in a transfer part; a message without a session, whose dead letters
/// have nowhere to go, stays in one too.
pub fn visit_rows()
    ensures by_name { visits rows.two_names 0 rows.minute rules.plain ≡
        record { entity = 1; part = Main; lot = ends cause.Fanned }
        ∷ record { entity = 3; part = Main; lot = stays 0 (rows.living 30 rules.plain) }
        ∷ record { entity = 2; part = Main; lot = ends cause.Forwarded }
        ∷ record { entity = 5; part = Main; lot = stays 1 (rows.living 60 rules.plain) } ∷ [] }
    ensures back_and_forth { visits rows.two_topics 0 rows.first_topic rules.plain ≡
        record { entity = 1; part = Main; lot = ends cause.Fanned }
        ∷ record { entity = 2; part = Main; lot = ends cause.Forwarded }
        ∷ record { entity = 3; part = Main; lot = ends cause.Fanned }
        ∷ record { entity = 4; part = Main; lot = ends cause.Forwarded }
        ∷ record { entity = 1; part = Main; lot = ends cause.Fanned }
        ∷ record { entity = 2; part = Main; lot = ends cause.Forwarded }
        ∷ record { entity = 3; part = Main; lot = ends cause.Fanned }
        ∷ record { entity = 4; part = Main; lot = ends cause.Forwarded }
        ∷ record { entity = 1; part = Main; lot = ends cause.Fanned }
        ∷ record { entity = 2; part = Main; lot = ends cause.Forwarded }
        ∷ record { entity = 2; part = Transfer; lot = stays 4 (for_reason reason.TooManyHops rules.plain) } ∷ [] }
    ensures no_session { visits (rows.sessions ∷ []) 0 rows.sessions rules.plain ≡
        record { entity = 1; part = Main; lot = ends cause.DeadLettered }
        ∷ record { entity = 1; part = Transfer; lot = stays 0 (for_reason reason.NoDestination (for_reason reason.NoSession rules.plain)) } ∷ [] }
{}
