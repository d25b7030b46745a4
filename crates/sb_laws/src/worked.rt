// Small histories whose lists compute to what was worked out by hand.
ghost use Rattle.std.specs.Prelude.{◌≡◌, ◌∷◌, ◌++◌, [], Err, Ok, codes, drop, length};
ghost use Rattle.sb_laws.specs.Joined.{without_effect};
ghost use Rattle.sb_laws.specs.Thin.{numbers_kept};
ghost use Rattle.sb_laws.specs.Worked.{
  IsOpen,
  accepted_in,
  again_answers,
  again_script,
  broken_off,
  end_one,
  failed_together,
  first_script,
  forgotten_script,
  handed_in,
  held_script,
  history,
  made_script,
  messages_in,
  noted_at,
  notes_by_entry,
  of_other,
  other_script,
  receiving,
  second_script,
  sending,
  sending_also,
  seven,
  spends_by_entry,
  start,
  with_left,
};
ghost use Rattle.sb_laws.specs.WorkedTogether.{lost_script, other_noted, scope_script, turns_script, united_script, worker_script};
ghost use Rattle.sb_machine.specs.Accounts.{acts, changing, ends_of, forgets, noted_ids, number_uses, spent_locks};
ghost use Rattle.sb_machine.specs.Events.{thinned};
ghost use Rattle.sb_machine.specs.History.{IsLegal, state_after};
ghost use Rattle.sb_machine.specs.Namespace.{live, made};
ghost use Rattle.sb_machine.specs.Worked.{answers_in, empty, state_by};
ghost use Rattle.sb_machine.specs.declared.call.Event.TheVariants.{Called, Tick};
ghost use Rattle.sb_machine.specs.declared.history.Entry.TheVariants.{Ticked};
ghost use Rattle.sb_machine.specs.declared.reply.Answered.TheVariants.{New};
ghost use Rattle.sb_machine.specs.declared.reply.Receipt.TheVariants.{Duplicate, Number};
ghost use Rattle.sb_machine.specs.declared.reply.PartRefusal.TheVariants as why;
ghost use Rattle.sb_machine.specs.declared.reply.Refusal.TheVariants.{InPart};
ghost use Rattle.sb_machine.specs.declared.reply.Reply.TheVariants.{Together};
ghost use Rattle.sb_machine.specs.declared.reply.StepReply.TheVariants.{Done, Sent};

/// The lists that the laws speak of, of two histories that were worked out by hand.
pub fn worked_histories()
    ensures entries { length (history first_script) ≡ 11 }
    ensures uses { number_uses start (history first_script) ≡ acts seven ∷ [] }
    ensures ends { ends_of start (history first_script) ≡ end_one ∷ [] }
    ensures spent { spent_locks start (history first_script) ≡ 1 ∷ [] }
    ensures settled { spends_by_entry start (history first_script) ≡ [] ∷ [] ∷ [] ∷ [] ∷ [] ∷ [] ∷ (1 ∷ []) ∷ [] ∷ [] ∷ [] ∷ [] ∷ [] }
    ensures noted { noted_ids start (history first_script) ≡ noted_at 0 ∷ noted_at 20000 ∷ [] }
    ensures notes { notes_by_entry start (history first_script) ≡ [] ∷ (noted_at 0 ∷ []) ∷ [] ∷ (noted_at 20000 ∷ []) ∷ [] ∷ [] ∷ [] ∷ [] ∷ [] ∷ [] ∷ [] ∷ [] }
    ensures accepted { accepted_in (history first_script) ≡ 1 ∷ 1 ∷ 1 ∷ [] }
    ensures made { made (state_after empty (history first_script)).space ≡ 3 }
    ensures live { live (state_after empty (history first_script)).space ≡ 2 }
    ensures changing { messages_in (changing start (history first_script)) ≡ 4 }
    ensures thin { messages_in (thinned start (history first_script)) ≡ 3 }
    ensures second { length (history second_script) ≡ 8 }
    ensures handed { handed_in (answers_in (history second_script)) ≡ 1 ∷ 1 ∷ [] }
    ensures locks { (state_after empty (history second_script)).space.last_lock ≡ 4 }
{}

/// A client is forgotten, and acts with the same number again; then another forgets it.
pub fn worked_forgetting()
    ensures told { answers_in (history again_script) ≡ again_answers }
    ensures uses { number_uses start (history other_script) ≡ acts seven ∷ forgets (codes "c") ∷ acts seven ∷ forgets (codes "c") ∷ acts of_other ∷ [] }
    ensures forgotten { (state_after empty (history forgotten_script)).clients ≡ [] }
    ensures again { numbers_kept (state_after empty (history again_script)).clients ≡ seven ∷ [] }
    ensures other { numbers_kept (state_after empty (history other_script)).clients ≡ of_other ∷ [] }
{}

/// What may be left open of histories that a failed disk ended, as a tick was to be made, as a message was
/// sent, and as two were sent together, and the entries that then stand for such a call.
pub fn worked_failures()
    ensures nothing { IsOpen (broken_off held_script receiving) [] }
    ensures tick { IsOpen (broken_off held_script receiving) (Tick 60005 ∷ []) }
    ensures step { IsOpen (broken_off held_script receiving) (Tick 60005 ∷ Called 60005 receiving.call ∷ []) }
    ensures call { IsOpen (broken_off made_script sending) (Called 5 sending.call ∷ []) }
    ensures legal { IsLegal empty failed_together }
    ensures first { IsOpen failed_together (Called 5 sending.call ∷ []) }
    ensures both { IsOpen failed_together (Called 5 sending.call ∷ Called 5 sending_also.call ∷ []) }
    ensures with_nothing { with_left held_script receiving [] ≡ history held_script ++ without_effect 0 60005 receiving.call ∷ [] }
    ensures with_tick { with_left held_script receiving (Tick 60005 ∷ []) ≡ history held_script ++ Ticked 0 60005 ∷ without_effect 0 60005 receiving.call ∷ [] }
    ensures with_step { with_left held_script receiving (Tick 60005 ∷ Called 60005 receiving.call ∷ []) ≡ history (held_script ++ receiving ∷ []) }
    ensures with_call { with_left made_script sending (Called 5 sending.call ∷ []) ≡ history (made_script ++ sending ∷ []) }
{}

/// A message is completed, another sent on and a session set together: what each is answered, and the
/// namespace that comes of them, as of a transaction. Then a lock is lost, and an operation is another
/// entity's: both are refused, with the operation's place, and leave all as it was. At last two are settled
/// around sends of ids: the locks that this uses up, and the ids that it notes, in their order.
pub fn worked_together()
    ensures replies { drop 5 (answers_in (history united_script)) ≡ Ok (New (Together (Done ∷ Sent (Number 1 ∷ []) ∷ Done ∷ []))) ∷ [] }
    ensures in_turn { (state_by united_script).space ≡ (state_by turns_script).space }
    ensures lost { drop 6 (answers_in (history lost_script)) ≡ Err (InPart 1 why.LockLost) ∷ [] }
    ensures scope { drop 6 (answers_in (history scope_script)) ≡ Err (InPart 1 why.TxnScope) ∷ [] }
    ensures left { state_by lost_script ≡ state_by united_script }
    ensures kept { state_by scope_script ≡ state_by united_script }
    ensures worker { drop 5 (answers_in (history worker_script)) ≡ Ok (New (Together (Done ∷ Sent (Duplicate ∷ Number 3 ∷ []) ∷ Sent (Number 1 ∷ []) ∷ Done ∷ []))) ∷ [] }
    ensures settled { drop 5 (spends_by_entry start (history worker_script)) ≡ (2 ∷ 1 ∷ []) ∷ [] }
    ensures noted { drop 5 (notes_by_entry start (history worker_script)) ≡ (other_noted ∷ []) ∷ [] }
{}
