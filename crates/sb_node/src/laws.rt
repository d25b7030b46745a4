// Laws: each a function without effect whose contract is true of the definitions.
ghost use Rattle.std.specs.Prelude.{◌≡◌, ◌∷◌, ◌++◌, [], codes, length, take, Some, None, Ok, Err};
ghost use Rattle.sb_desk.specs.Spared.{Spares};
ghost use Rattle.sb_journal.specs.declared.found.Side.TheVariants.{A, B};
ghost use Rattle.sb_machine.specs.Namespace.{empty_state};
ghost use Rattle.sb_machine.specs.Worked.{empty};
ghost use Rattle.sb_machine.specs.declared.call.How.TheVariants.{Abandon, Complete};
ghost use Rattle.sb_machine.specs.declared.reply.Answered.TheVariants.{New};
ghost use Rattle.sb_machine.specs.declared.reply.Refusal.TheVariants.{OutOfMemory};
ghost use Rattle.sb_machine.specs.declared.reply.Reply.TheVariants.{Done};
ghost use Rattle.sb_node.specs.Groups.{FailTogether, FailedFollows, GroupsGoOn, NoneRuns, RunsOn, SealedFollows};
ghost use Rattle.sb_node.specs.Laws.{RecoversConsistent};
ghost use Rattle.sb_node.specs.Recovery.{recovered, recovers, damaged};
ghost use Rattle.sb_node.specs.Steps.{is_spared};
ghost use Rattle.sb_node.specs.Worked.{worked_file, worked_salt, with_byte, with_queue, ticked_file, based_file, empty_base, base_byte, made_record};
ghost use Rattle.sb_node.specs.WorkedSpared.{settled, settlement};

/// Whatever stands on two disks, a state that it recovers is consistent: a damaged journal is never
/// taken for a namespace that calls can't lead to.
pub fn recovers_consistent()
    ensures { RecoversConsistent }
{}

/// What a crash leaves during a history of groups goes on with each group more: until that is answered it leads to the state before
/// the group or to that after all of it.
pub fn goes_on_by_groups()
    ensures { GroupsGoOn }
{}

/// Calls that are carried out one behind another and made safe at once are a step of several calls: what a crash leaves of them
/// leads to the state before all of them or to that behind all, also where the disk fails and each is answered so.
pub fn runs_together()
    ensures none { NoneRuns }
    ensures more { RunsOn }
    ensures fail { FailTogether }
    ensures sealed { SealedFollows }
    ensures failed { FailedFollows }
{}

/// A journal of one event, worked through with the definitions alone: it recovers its queue, also
/// with its end gate missing, and each kind of damage has the place that was worked out by hand.
pub fn worked_journal()
    ensures length { length worked_file ≡ 87 }
    ensures whole { recovered worked_file [] 0 ≡ recovers with_queue 1 }
    ensures no_end_gate { recovered (take 86 worked_file) [] 0 ≡ recovers with_queue 1 }
    ensures gate_closed { recovered (with_byte 42 0) [] 0 ≡ recovers (empty_state worked_salt) 0 }
    ensures no_journal { (recovered (take 43 (with_byte 0 0)) [] 5 ≡ recovers (empty_state 5) 0) × (recovered (take 42 worked_file) [] 5 ≡ recovers (empty_state 5) 0) }
    ensures first_byte { (recovered (with_byte 0 0) [] 5 ≡ damaged A 0) × (recovered (with_byte 0 0x58) [] 5 ≡ damaged A 0) × (recovered (take 44 (with_byte 0 0x58)) [] 5 ≡ damaged A 0) }
    ensures magic { recovered (with_byte 8 0) [] 0 ≡ damaged A 1 }
    ensures version { recovered (with_byte 9 2) [] 0 ≡ damaged A 9 }
    ensures generation { (recovered (with_byte 25 0) [] 0 ≡ damaged A 18) × (recovered (with_byte 18 0x40) [] 0 ≡ damaged A 18) }
    ensures first { (recovered (with_byte 33 0) [] 0 ≡ damaged A 26) × (recovered (with_byte 26 0x40) [] 0 ≡ damaged A 26) }
    ensures base { recovered (with_byte 41 1) [] 0 ≡ damaged A 42 }
    ensures base_cut { recovered (with_byte 40 1) [] 0 ≡ damaged A 42 }
    ensures cut { (recovered (take 85 worked_file) [] 0 ≡ damaged A 42) × (recovered (take 43 worked_file) [] 0 ≡ damaged A 42) }
    ensures too_long { recovered (with_byte 44 0x11) [] 0 ≡ damaged A 42 }
    ensures number { recovered (with_byte 54 2) [] 0 ≡ damaged A 42 }
    ensures no_event { recovered (with_byte 55 2) [] 0 ≡ damaged A 42 }
    // The name is none that a queue may have.
    ensures refused { recovered (with_byte 70 0x20) [] 0 ≡ damaged A 42 }
    // The moment is past the last one.
    ensures late { recovered (with_byte 56 1) [] 0 ≡ damaged A 42 }
    ensures gate_open { recovered (with_byte 86 1) [] 0 ≡ damaged A 86 }
    // Time goes on only where something is due.
    ensures idle { recovered ticked_file [] 0 ≡ damaged A 86 }
{}

/// The same journal on one of two disks or on both, worked through with the definitions alone: of two the
/// one of greater generation counts, and nothing but the head is read of the other.
pub fn worked_pair()
    ensures greater { (recovered (with_byte 42 0) (with_byte 25 2) 0 ≡ recovers with_queue 1) × (recovered (with_byte 25 2) (with_byte 42 0) 0 ≡ recovers with_queue 1) }
    ensures beside { (recovered [] worked_file 0 ≡ recovers with_queue 1) × (recovered (with_byte 0 0x58) worked_file 0 ≡ recovers with_queue 1) × (recovered worked_file (with_byte 0 0x58) 0 ≡ recovers with_queue 1) }
    ensures same { recovered worked_file worked_file 0 ≡ damaged B 18 }
    ensures heads { (recovered worked_file (with_byte 8 0) 0 ≡ damaged B 1) × (recovered (with_byte 9 2) (with_byte 8 0) 0 ≡ damaged A 9) × (recovered [] (with_byte 33 0) 0 ≡ damaged B 26) }
    ensures first_byte { (recovered [] (with_byte 0 0x58) 5 ≡ damaged B 0) × (recovered (with_byte 0 0) (with_byte 0 0) 5 ≡ damaged A 0) }
    ensures records { (recovered (with_byte 44 0x11) (with_byte 25 2) 0 ≡ recovers with_queue 1) × (recovered [] (with_byte 44 0x11) 0 ≡ damaged B 42) }
{}

/// A journal whose events are numbered from 6 and whose base has 80 bytes, worked through with the definitions
/// alone: it begins with the state that these spell, and where they spell none, or one that isn't consistent, the
/// base is damaged.
pub fn worked_base()
    ensures empty { recovered (based_file 80 empty_base (0 ∷ [])) [] 0 ≡ recovers (empty_state worked_salt) 5 }
    ensures no_end_gate { recovered (based_file 80 empty_base []) [] 0 ≡ recovers (empty_state worked_salt) 5 }
    ensures cut { (recovered (take 121 (based_file 80 empty_base [])) [] 0 ≡ damaged A 42) × (recovered (take 43 (based_file 80 empty_base [])) [] 0 ≡ damaged A 42) }
    ensures short { recovered (based_file 79 (take 79 empty_base) (0 ∷ [])) [] 0 ≡ damaged A 42 }
    ensures long { recovered (based_file 81 (empty_base ++ 0 ∷ []) (0 ∷ [])) [] 0 ≡ damaged A 42 }
    // A client is missing.
    ensures unspelled { recovered (based_file 80 (base_byte 79 1) (0 ∷ [])) [] 0 ≡ damaged A 42 }
    // The moment is past the last one.
    ensures inconsistent { recovered (based_file 80 (base_byte 0 1) (0 ∷ [])) [] 0 ≡ damaged A 42 }
    ensures moment { recovered (based_file 80 (base_byte 7 9) (0 ∷ [])) [] 0 ≡ recovers (record (empty_state worked_salt) { now = 9 }) 5 }
    ensures event { recovered (based_file 80 empty_base made_record) [] 0 ≡ recovers with_queue 6 }
    // Time doesn't go back to an event behind a base.
    ensures earlier { recovered (based_file 80 (base_byte 7 9) made_record) [] 0 ≡ damaged A 122 }
{}

/// A history whose last call settles a message under a lock, worked through with the definitions alone:
/// for a completion memory isn't wanting.
pub fn worked_spared()
    ensures done { Spares is_spared empty (settled 0 (settlement None Complete) (Ok (New Done))) }
    ensures wanting { Spares is_spared empty (settled 0 (settlement None Complete) (Err OutOfMemory)) → ⊥ }
    // It may be where the lock ends first, where the reply is kept for a client, and where the message is copied.
    ensures due { Spares is_spared empty (settled 60000 (settlement None Complete) (Err OutOfMemory)) }
    ensures numbered { Spares is_spared empty (settled 0 (settlement (Some (record { client = codes "c"; number = 1 })) Complete) (Err OutOfMemory)) }
    ensures given_back { Spares is_spared empty (settled 0 (settlement None Abandon) (Err OutOfMemory)) }
{}
