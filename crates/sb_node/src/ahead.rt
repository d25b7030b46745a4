// A namespace that goes on ahead of its journal's end: each call is planned, reserved and carried out on the state that those
// before it leave, and its event is staged; one sealing makes all of them safe.
ghost use Rattle.std.specs.Prelude.{◌≡◌, ◌≢◌, ◌≤◌, ◌+◌, ◌++◌, ◌∷◌, [], List, map, ℕ, Option, Some, None, Err, is_err, is_some, length, true, false, IfOk, IfErr, IfSome, OnOk, OnErr};
ghost use Rattle.std.specs.List.{All};
ghost use Rattle.sb_desk.specs.Entries.{counted};
ghost use Rattle.sb_engine.specs.Engines.{engine_state};
ghost use Rattle.sb_journal.specs.Journals.{has_failed, journal_aside};
ghost use Rattle.sb_journal.specs.Text.{max_payload};
ghost use Rattle.sb_machine.specs.Consistent.{IsConsistent};
ghost use Rattle.sb_machine.specs.History.{is_disk_fault};
ghost use Rattle.sb_machine.specs.declared.reply.Refusal.TheVariants.{DiskFault, OutOfMemory, Stopped};
ghost use Rattle.sb_recorder.specs.Recorders.{recorder_journal};

use crate::refusing::put_went;
use crate::replay::MAX_MOMENT;
use sb_desk::{Post, Went};
use sb_engine::{Engine, Plan};
use sb_machine::{Answer, Call, EventRef, Refusal};
use sb_outside::Disk;
use sb_recorder::Recorder;

/// A namespace ahead of its journal.
pub struct Ahead<D: Disk> {
    // What writes its journal, with room for the longest event, so that no step grows it.
    pub(crate) recorder: Recorder<D>,
    pub(crate) engine: Engine,
    // The number of the last record that counts.
    pub(crate) last: u64,
    // How many events are staged behind it.
    staged: u64,
    ghost consistent: { ∥ IsConsistent (engine_state engine) ∥₁ },
}

impl<D: Disk> Ahead<D> {
    ghost use Rattle.sb_desk.specs.Posts.{asked_of, group_entries, post_entries};
    ghost use Rattle.sb_desk.specs.Spared.{SparesFrom};
    ghost use Rattle.sb_node.specs.Posts.{fault_entries, fault_entry};
    ghost use Rattle.sb_node.specs.Groups.{failed, has_fault, FollowGroups, HaveRun};
    ghost use Rattle.sb_node.specs.Serving.{raised};
    ghost use Rattle.sb_machine.specs.Accounts.{changing};
    ghost use Rattle.sb_machine.specs.declared.history.Entry.{Entry};
    ghost use Rattle.sb_node.specs.Ahead.{ahead_state, ahead_journal, ahead_disks, ahead_last, ahead_staged, made_events, IsAhead, IsMadeBy, IsSealed, IsUnmoved, tells_fault};
    ghost use Rattle.sb_node.specs.Nodes.{events_on, HoldsState, StayOneOf};
    ghost use Rattle.sb_node.specs.Recovery.{replay_file, reaches};
    ghost use Rattle.sb_node.specs.Steps.{log_of, entries_with, ticked_to, tick_events, call_events, is_spared, is_still, IsStep, IsTicked, IsTickFault, IsAnswered};
    ghost use Rattle.sb_engine.specs.Engines.{adds_nothing, IsSound, HasRoom};
    ghost use Rattle.sb_engine.specs.Small.{takes_no_memory};
    ghost use Rattle.sb_codec.specs.EventBytes.{event_of, event_bytes, IsSpellable, HasSpelling};
    ghost use Rattle.sb_machine.specs.Answers.{moment_of, is_change, max_moment};
    ghost use Rattle.sb_machine.specs.History.{is_spent};
    ghost use Rattle.sb_machine.specs.Repeats.{client_of, outcome_of};
    ghost use Rattle.sb_machine.specs.Due.{is_due};
    ghost use Rattle.sb_machine.specs.Ordered.{IsActInOrder};
    ghost use Rattle.sb_machine.specs.declared.call.Event.{Event};
    ghost use Rattle.sb_machine.specs.declared.state.State.{State};
    ghost use Rattle.sb_recorder.specs.Recorders.{HasAccount, HasStaged, IsUnwritten};
    ghost use Rattle.sb_journal.specs.Text.{File};
    ghost use Rattle.sb_journal.specs.Opened.{FindsFile};
    ghost use Rattle.sb_journal.specs.Journals.{fault_count, journal_disk_a, journal_disk_b, HoldsStaged};
    ghost use Rattle.sb_journal.specs.Disks.{EachPair};

    /// Over what writes the journal, the state for which that stands, and the number of its last record. Nothing is staged.
    pub fn over(recorder: Recorder<D>, engine: Engine, last: u64) -> Ahead<D>
        requires { IsConsistent (engine_state engine) }
        ensures journal { ahead_journal result ≡ recorder_journal recorder }
        ensures state { ahead_state result ≡ engine_state engine }
        ensures last { ahead_last result ≡ last }
        ensures staged { ahead_staged result ≡ 0 }
        ensures ahead { (kept : HoldsState (recorder_journal recorder) last (engine_state engine)) → IsAhead result kept.file [] }
    {
        Ahead {
            recorder,
            engine,
            last,
            staged: 0,
        }
    }

    /// Makes one call at this reading of the clock, in ms since 1970; where something is due by then, time goes on first. What
    /// changes is staged, and counts once it is sealed. A call to which memory is wanting is answered so, and nothing of it is staged
    /// but its tick. `DiskFault` where the disk failed: then nothing counts that is staged.
    pub fn step(&mut self, reading: u64, call: &Call) -> Result<Went, sb_outside::DiskFault>
        requires order { IsActInOrder call.now.act }
        requires running { has_failed (ahead_journal self.old) ≡ false }

        // It adds to a legal history its call, and before that at most a tick.
        ensures step { IfOk result (λ went. (seat : ℕ) → IsStep (log_of (ahead_state self.old) None) (entries_with went.tick seat reading call.now went.answer) (log_of (ahead_state self.new) None)) }

        // Time goes on to the moment of the call alone.
        ensures ticked { IfOk result (λ went. IfSome went.tick (λ t. t ≡ moment_of (ahead_state self.old) reading)) }

        // The events that are staged grow by those of its entries that changed the state.
        ensures ahead { (file : File) (events : List Event) → IsAhead self.old file events
            → IfOk result (λ went. (seat : ℕ) → IsAhead self.new file (events ++ made_events (ahead_state self.old) went.tick seat reading call.now went.answer)) }

        ensures count { IfOk result (λ went. (seat : ℕ) → ahead_staged self.new ≡ raised (ahead_staged self.old) (length (made_events (ahead_state self.old) went.tick seat reading call.now went.answer))) }

        // A disk that fails before they are sealed may leave them.
        ensures made { IfOk result (λ went. (seat : ℕ) → IsMadeBy (ahead_state self.old) reading call.now (made_events (ahead_state self.old) went.tick seat reading call.now went.answer) (ahead_state self.new)) }
        ensures no_fault { IfOk result (λ went. is_disk_fault went.answer ≡ false) }
        ensures still { IfOk result (λ went. (seat : ℕ) → made_events (ahead_state self.old) went.tick seat reading call.now went.answer ≡ [] → IsUnmoved self.old self.new) }
        ensures last { ahead_last self.new ≡ ahead_last self.old }
        ensures consistent { IsConsistent (ahead_state self.old) → OnOk result (IsConsistent (ahead_state self.new)) }

        // A crash at any moment leaves the file without all that is staged.
        ensures any_moment { (file : File) (events : List Event) → IsAhead self.old file events → EachPair (ahead_disks self.old) (ahead_disks self.new) (FindsFile file) }

        // Where nothing is due, or no more once time has gone on, a call that takes no memory is never refused for want of it.
        ensures free { IfOk result (λ went. is_spared (moment_of (ahead_state self.old) reading) call.now (ticked_to went.tick (ahead_state self.old)) ≡ true → went.answer ≢ Err OutOfMemory) }

        // No disk is touched where neither time nor the machine changes anything.
        ensures busy { OnErr result (is_still (moment_of (ahead_state self.old) reading) call.now (ahead_state self.old) ≡ false) }
        ensures account { HasAccount (ahead_journal self.old) (ahead_journal self.new) }
        ensures failed { has_failed (ahead_journal self.new) ≡ is_err result }
        ensures aside { journal_aside (ahead_journal self.new) ≡ journal_aside (ahead_journal self.old) }
    {
        let t = reading.min(MAX_MOMENT).max(self.engine.moment());
        let tick = match self.tick(t) {
            Ok(tick) => tick,
            Err(refusal) => {
                if is_disk_refusal(&refusal) {
                    drop(refusal);
                    return Err(sb_outside::DiskFault);
                }
                return Ok(Went {
                    answer: Err(refusal),
                    tick: None,
                });
            }
        };
        let answer = self.answer(t, call);
        if is_disk_fault(&answer) {
            drop(answer);
            return Err(sb_outside::DiskFault);
        }
        Ok(Went { answer, tick })
    }

    /// Makes one call as `step` does, and makes it safe; says how many events that took. `DiskFault` where the disk failed: then the call
    /// failed, also where it was refused or memory was wanting.
    pub fn carry_one(
        &mut self,
        reading: u64,
        call: &Call,
    ) -> Result<(Went, u64), sb_outside::DiskFault>
        requires order { IsActInOrder call.now.act }
        requires running { has_failed (ahead_journal self.old) ≡ false }
        ensures step { IfOk result (λ made. (seat : ℕ) → IsStep (log_of (ahead_state self.old) None) (entries_with made.0.tick seat reading call.now made.0.answer) (log_of (ahead_state self.new) None)) }
        ensures ticked { IfOk result (λ made. IfSome made.0.tick (λ t. t ≡ moment_of (ahead_state self.old) reading)) }
        ensures count { ahead_staged self.old ≡ 0 → IfOk result (λ made. (seat : ℕ) → made.1 ≡ raised 0 (length (made_events (ahead_state self.old) made.0.tick seat reading call.now made.0.answer))) }
        ensures staged { OnOk result (ahead_staged self.new ≡ 0) }
        ensures consistent { IsConsistent (ahead_state self.old) → OnOk result (IsConsistent (ahead_state self.new)) }
        ensures no_fault { IfOk result (λ made. is_disk_fault made.0.answer ≡ false) }
        ensures kept { ahead_staged self.old ≡ 0 → HoldsState (ahead_journal self.old) (ahead_last self.old) (ahead_state self.old) → OnOk result (HoldsState (ahead_journal self.new) (ahead_last self.new) (ahead_state self.new)) }

        // The events on the disks grow by those of its entries that changed the state; where there is none, all stays.
        ensures events { ahead_staged self.old ≡ 0 → HoldsState (ahead_journal self.old) (ahead_last self.old) (ahead_state self.old)
            → IfOk result (λ made. (seat salt : ℕ) → events_on (ahead_disks self.new) salt ≡ events_on (ahead_disks self.old) salt ++ map Some (made_events (ahead_state self.old) made.0.tick seat reading call.now made.0.answer)) }
        ensures still { ahead_staged self.old ≡ 0 → IfOk result (λ made. (seat : ℕ) → made_events (ahead_state self.old) made.0.tick seat reading call.now made.0.answer ≡ []
            → (ahead_journal self.new ≡ ahead_journal self.old) × (ahead_state self.new ≡ ahead_state self.old)) }

        // A crash at any moment leads to the state before the call or to that behind it.
        ensures any_moment { ahead_staged self.old ≡ 0 → HoldsState (ahead_journal self.old) (ahead_last self.old) (ahead_state self.old)
            → OnOk result (StayOneOf (ahead_disks self.old) (ahead_disks self.new) (ahead_state self.old ∷ ahead_state self.new ∷ [])) }
        ensures follows { ahead_staged self.old ≡ 0 → HoldsState (ahead_journal self.old) (ahead_last self.old) (ahead_state self.old)
            → IfOk result (λ made. (seat : ℕ) → FollowGroups false (log_of (ahead_state self.old) None) (entries_with made.0.tick seat reading call.now made.0.answer ∷ []) (ahead_disks self.old) (ahead_disks self.new)) }

        // The same where it is answered that the disk failed.
        ensures fails { ahead_staged self.old ≡ 0 → HoldsState (ahead_journal self.old) (ahead_last self.old) (ahead_state self.old)
            → OnErr result ((seat : ℕ) → FollowGroups false (log_of (ahead_state self.old) None) (entries_with None seat reading call.now (Err DiskFault) ∷ []) (ahead_disks self.old) (ahead_disks self.new)) }
        ensures free { IfOk result (λ made. is_spared (moment_of (ahead_state self.old) reading) call.now (ticked_to made.0.tick (ahead_state self.old)) ≡ true → made.0.answer ≢ Err OutOfMemory) }
        ensures busy { ahead_staged self.old ≡ 0 → OnErr result (is_still (moment_of (ahead_state self.old) reading) call.now (ahead_state self.old) ≡ false) }
        ensures account { HasAccount (ahead_journal self.old) (ahead_journal self.new) }
        ensures failed { has_failed (ahead_journal self.new) ≡ is_err result }
        ensures aside { journal_aside (ahead_journal self.new) ≡ journal_aside (ahead_journal self.old) }
    {
        let Ok(went) = self.step(reading, call) else {
            return Err(sb_outside::DiskFault);
        };
        let Ok(count) = self.seal() else {
            drop(went);
            return Err(sb_outside::DiskFault);
        };
        Ok((went, count))
    }

    /// Makes these calls one behind another, each as by `step`. `DiskFault` where the disk failed: then nothing counts that is staged,
    /// and those behind aren't made.
    pub fn run(&mut self, posts: &mut [Post]) -> Result<(), sb_outside::DiskFault>
        requires order { All (λ p. IsActInOrder p.call.act) posts.old }
        requires running { has_failed (ahead_journal self.old) ≡ false }

        // They are a step of several calls.
        ensures run { OnOk result (HaveRun (ahead_state self.old) (group_entries posts.new) (ahead_state self.new)) }
        ensures ahead { (file : File) (events : List Event) → IsAhead self.old file events → OnOk result (IsAhead self.new file (events ++ changing (log_of (ahead_state self.old) None) (group_entries posts.new))) }
        ensures count { OnOk result (ahead_staged self.new ≡ raised (ahead_staged self.old) (length (changing (log_of (ahead_state self.old) None) (group_entries posts.new)))) }
        ensures no_fault { OnOk result (has_fault (group_entries posts.new) ≡ false) }
        ensures fails { OnOk result (failed (group_entries posts.new) ≡ fault_entries posts.new) }

        // None that takes no memory is refused for want of it.
        ensures free { OnOk result (SparesFrom is_spared (log_of (ahead_state self.old) None) (group_entries posts.new)) }
        ensures asked { map asked_of posts.new ≡ map asked_of posts.old }
        ensures went { OnOk result (All (λ p. is_some p.went ≡ true) posts.new) }
        ensures last { ahead_last self.new ≡ ahead_last self.old }

        // A crash at any moment leaves the file without all that is staged.
        ensures any_moment { (file : File) (events : List Event) → IsAhead self.old file events → EachPair (ahead_disks self.old) (ahead_disks self.new) (FindsFile file) }
        ensures account { HasAccount (ahead_journal self.old) (ahead_journal self.new) }
        ensures failed { has_failed (ahead_journal self.new) ≡ is_err result }
        ensures aside { journal_aside (ahead_journal self.new) ≡ journal_aside (ahead_journal self.old) }
    {
        for post in posts.iter_mut() {
            let Ok(()) = self.run_one(post) else {
                return Err(sb_outside::DiskFault);
            };
        }
        Ok(())
    }

    /// Makes these calls one behind another, and makes them safe at once; says how many of their events that took. `DiskFault` where
    /// the disk failed: each of them failed then.
    pub fn carry_out(&mut self, posts: &mut [Post]) -> Result<u64, sb_outside::DiskFault>
        requires order { All (λ p. IsActInOrder p.call.act) posts.old }
        requires running { has_failed (ahead_journal self.old) ≡ false }
        ensures run { OnOk result (HaveRun (ahead_state self.old) (group_entries posts.new) (ahead_state self.new)) }
        ensures count { ahead_staged self.old ≡ 0 → IfOk result (λ n. n ≡ raised 0 (length (changing (log_of (ahead_state self.old) None) (group_entries posts.new)))) }
        ensures free { OnOk result (SparesFrom is_spared (log_of (ahead_state self.old) None) (group_entries posts.new)) }
        ensures asked { map asked_of posts.new ≡ map asked_of posts.old }
        ensures went { OnOk result (All (λ p. is_some p.went ≡ true) posts.new) }
        ensures staged { OnOk result (ahead_staged self.new ≡ 0) }
        ensures kept { ahead_staged self.old ≡ 0 → HoldsState (ahead_journal self.old) (ahead_last self.old) (ahead_state self.old) → OnOk result (HoldsState (ahead_journal self.new) (ahead_last self.new) (ahead_state self.new)) }

        // By its entries: a crash at any moment leads to the state before the group or to that behind it.
        ensures follows { ahead_staged self.old ≡ 0 → HoldsState (ahead_journal self.old) (ahead_last self.old) (ahead_state self.old)
            → OnOk result (FollowGroups false (log_of (ahead_state self.old) None) (group_entries posts.new ∷ []) (ahead_disks self.old) (ahead_disks self.new)) }

        // The same where each is answered that the disk failed.
        ensures fails { ahead_staged self.old ≡ 0 → HoldsState (ahead_journal self.old) (ahead_last self.old) (ahead_state self.old)
            → OnErr result (FollowGroups false (log_of (ahead_state self.old) None) (fault_entries posts.new ∷ []) (ahead_disks self.old) (ahead_disks self.new)) }
        ensures account { HasAccount (ahead_journal self.old) (ahead_journal self.new) }
        ensures failed { has_failed (ahead_journal self.new) ≡ is_err result }
        ensures aside { journal_aside (ahead_journal self.new) ≡ journal_aside (ahead_journal self.old) }
    {
        let Ok(()) = self.run(posts) else {
            return Err(sb_outside::DiskFault);
        };
        self.seal()
    }

    // Makes one call more behind those that were made.
    fn run_one(&mut self, post: &mut Post) -> Result<(), sb_outside::DiskFault>
        requires order { IsActInOrder post.old.call.act }
        requires running { has_failed (ahead_journal self.old) ≡ false }
        ensures run { (start : State) (made : List Entry) → HaveRun start made (ahead_state self.old) → OnOk result (HaveRun start (made ++ post_entries post.new) (ahead_state self.new)) }
        ensures ahead { (file : File) (events : List Event) → IsAhead self.old file events → OnOk result (IsAhead self.new file (events ++ changing (log_of (ahead_state self.old) None) (post_entries post.new))) }
        ensures count { OnOk result (ahead_staged self.new ≡ raised (ahead_staged self.old) (length (changing (log_of (ahead_state self.old) None) (post_entries post.new)))) }
        ensures no_fault { OnOk result (has_fault (post_entries post.new) ≡ false) }
        ensures fails { OnOk result (failed (post_entries post.new) ≡ fault_entry post.new ∷ []) }
        ensures free { (start : State) (made : List Entry) → HaveRun start made (ahead_state self.old) → SparesFrom is_spared (log_of start None) made → OnOk result (SparesFrom is_spared (log_of start None) (made ++ post_entries post.new)) }
        ensures asked { asked_of post.new ≡ asked_of post.old }
        ensures went { OnOk result (is_some post.new.went ≡ true) }
        ensures last { ahead_last self.new ≡ ahead_last self.old }
        ensures any_moment { (file : File) (events : List Event) → IsAhead self.old file events → EachPair (ahead_disks self.old) (ahead_disks self.new) (FindsFile file) }
        ensures account { HasAccount (ahead_journal self.old) (ahead_journal self.new) }
        ensures failed { has_failed (ahead_journal self.new) ≡ is_err result }
        ensures aside { journal_aside (ahead_journal self.new) ≡ journal_aside (ahead_journal self.old) }
    {
        let Ok(went) = self.step(post.reading, &post.call) else {
            return Err(sb_outside::DiskFault);
        };
        put_went(post, went);
        Ok(())
    }

    /// Makes all events safe that are staged, at once, and says how many; where none is, nothing is done. `DiskFault` where the disk
    /// failed: then all of them count or none does.
    pub fn seal(&mut self) -> Result<u64, sb_outside::DiskFault>
        requires running { has_failed (ahead_journal self.old) ≡ false }
        ensures sealed { (file : File) (events : List Event) → IsAhead self.old file events → OnOk result (IsSealed (ahead_journal self.new) (ahead_last self.new) file events (ahead_state self.new)) }

        // A crash at any moment leads to the state before all the events or to that after all of them.
        ensures any_moment { (file : File) (events : List Event) (s : State) → IsAhead self.old file events → replay_file file ≡ reaches s → StayOneOf (ahead_disks self.old) (ahead_disks self.new) (s ∷ ahead_state self.old ∷ []) }
        ensures nothing { ahead_staged self.old ≡ 0 → self.new ≡ self.old }
        ensures count { IfOk result (λ n. n ≡ ahead_staged self.old) }
        ensures busy { OnErr result (ahead_staged self.old ≡ 0 → ⊥) }
        ensures state { ahead_state self.new ≡ ahead_state self.old }
        ensures staged { OnOk result (ahead_staged self.new ≡ 0) }
        ensures last { OnErr result (ahead_last self.new ≡ ahead_last self.old) }
        ensures account { HasAccount (ahead_journal self.old) (ahead_journal self.new) }
        ensures failed { has_failed (ahead_journal self.new) ≡ is_err result }
        ensures aside { journal_aside (ahead_journal self.new) ≡ journal_aside (ahead_journal self.old) }
    {
        if self.staged == 0 {
            return Ok(0);
        }
        let Ok(_first) = self.recorder.seal_events() else {
            return Err(sb_outside::DiskFault);
        };
        let count = self.staged;
        self.last = self.last.saturating_add(count);
        self.staged = 0;
        Ok(count)
    }

    /// The two disks back, as they are.
    pub(crate) fn close(self) -> (D, D)
        ensures disk_a { result.0 ≡ journal_disk_a (ahead_journal self) }
        ensures disk_b { result.1 ≡ journal_disk_b (ahead_journal self) }
    {
        let Ahead {
            recorder,
            engine: _,
            last: _,
            staged: _,
        } = self;
        recorder.close()
    }

    /// Of the disk that failed: its count of faults.
    pub(crate) fn faults(&self) -> u64
        ensures { result ≡ fault_count (ahead_journal self.now) }
    {
        self.recorder.faults()
    }

    /// The marks of the parts for which something came since this was asked last.
    pub(crate) fn take_entered(&mut self) -> u64
        ensures same { self.new ≡ self.old }
    {
        self.engine.take_entered()
    }

    // Where something is due at a moment, time goes on to it, and that is staged.
    fn tick(&mut self, t: u64) -> Result<Option<u64>, Refusal>
        requires later { (ahead_state self.old).now ≤ t }
        requires counts { t ≤ max_moment }
        requires running { has_failed (ahead_journal self.old) ≡ false }
        ensures ok { IfOk result (λ tick. IsTicked tick t (ahead_state self.old) (ahead_state self.new)) }
        ensures due { IfErr result (λ e. is_due t (ahead_state self.old).space ≡ true) }
        ensures busy { IfErr result (λ e. e ≡ DiskFault → is_spent (ahead_state self.old) t ≡ false) }
        ensures err { IfErr result (λ e. e ≢ DiskFault → IsTickFault t (ahead_state self.old) None e × IsUnmoved self.old self.new) }
        ensures ahead { (file : File) (events : List Event) → IsAhead self.old file events → IfOk result (λ tick. IsAhead self.new file (events ++ tick_events tick)) }
        ensures still { IfOk result (λ tick. tick ≡ None → self.new ≡ self.old) }
        ensures count { IfOk result (λ tick. ahead_staged self.new ≡ raised (ahead_staged self.old) (length (tick_events tick))) }
        ensures last { ahead_last self.new ≡ ahead_last self.old }
        ensures any_moment { (file : File) (events : List Event) → IsAhead self.old file events → EachPair (ahead_disks self.old) (ahead_disks self.new) (FindsFile file) }
        ensures account { HasAccount (ahead_journal self.old) (ahead_journal self.new) }
        ensures failed { has_failed (ahead_journal self.new) ≡ tells_fault result }
        ensures aside { journal_aside (ahead_journal self.new) ≡ journal_aside (ahead_journal self.old) }
    {
        if !self.engine.is_due(t) {
            return Ok(None);
        }
        let plan = self.engine.plan_tick(t)?;
        match self.stage(&EventRef::Tick { moment: t }, &plan) {
            Ok(()) => {}
            Err(refusal) => {
                let_go(plan);
                return Err(refusal);
            }
        }
        let answered = self.engine.commit(t, plan);
        drop(answered);
        Ok(Some(t))
    }

    // Makes a call at a moment at which nothing is due.
    fn answer(&mut self, t: u64, call: &Call) -> Answer
        requires later { (ahead_state self.old).now ≤ t }
        requires counts { t ≤ max_moment }
        requires calm { is_due t (ahead_state self.old).space ≡ false }
        requires order { IsActInOrder call.now.act }
        requires running { has_failed (ahead_journal self.old) ≡ false }
        ensures answered { result ≢ Err DiskFault → IsAnswered t call.now (ahead_state self.old) result None (ahead_state self.new) }
        ensures busy { result ≡ Err DiskFault → is_change (client_of call.now) (outcome_of (ahead_state self.old) t call.now) ≡ true }
        ensures no_stop { (n : ℕ) → result ≢ Err (Stopped n) }
        ensures ahead { (file : File) (events : List Event) → IsAhead self.old file events → result ≢ Err DiskFault → IsAhead self.new file (events ++ call_events t call.now (ahead_state self.old) result) }
        ensures still { result ≢ Err DiskFault → call_events t call.now (ahead_state self.old) result ≡ [] → IsUnmoved self.old self.new }
        ensures count { result ≢ Err DiskFault → ahead_staged self.new ≡ raised (ahead_staged self.old) (length (call_events t call.now (ahead_state self.old) result)) }
        ensures last { ahead_last self.new ≡ ahead_last self.old }
        ensures free { takes_no_memory (ahead_state self.old).space call.now ≡ true → result ≢ Err OutOfMemory }
        ensures any_moment { (file : File) (events : List Event) → IsAhead self.old file events → EachPair (ahead_disks self.old) (ahead_disks self.new) (FindsFile file) }
        ensures account { HasAccount (ahead_journal self.old) (ahead_journal self.new) }
        ensures failed { has_failed (ahead_journal self.new) ≡ is_disk_fault result }
        ensures aside { journal_aside (ahead_journal self.new) ≡ journal_aside (ahead_journal self.old) }
    {
        let plan = self.engine.plan(t, call)?;
        if !plan.is_changing() {
            return Ok(plan.into_answered());
        }
        match self.stage(&EventRef::Called { moment: t, call }, &plan) {
            Ok(()) => {}
            Err(refusal) => {
                let_go(plan);
                return Err(refusal);
            }
        }
        let answered = self.engine.commit(t, plan);
        Ok(answered)
    }

    // Takes all memory that a plan needs, and stages its event.
    fn stage(&mut self, event: &EventRef<'_>, plan: &Plan) -> Result<(), Refusal>
        requires spellable { IsSpellable (event_of event.now) }
        requires short { HasSpelling (event_of event.now) → length (event_bytes (event_of event.now)) ≤ max_payload }
        requires running { has_failed (ahead_journal self.old) ≡ false }
        ensures state { ahead_state self.new ≡ ahead_state self.old }
        ensures room { OnOk result ((t : ℕ) → IsSound (ahead_state self.old) t plan.now → HasRoom self.new.engine t plan.now) }
        ensures staged { (file : File) (staged : List (List ℕ)) → HoldsStaged (ahead_journal self.old) file staged → OnOk result (HasStaged (ahead_journal self.new) file staged (event_of event.now)) }
        ensures any_moment { (file : File) (staged : List (List ℕ)) → HoldsStaged (ahead_journal self.old) file staged → EachPair (ahead_disks self.old) (ahead_disks self.new) (FindsFile file) }
        ensures count { OnOk result (ahead_staged self.new ≡ counted (ahead_staged self.old + 1)) }
        ensures last { ahead_last self.new ≡ ahead_last self.old }
        ensures refused { IfErr result (λ e. IsUnwritten (ahead_journal self.old) (ahead_journal self.new) e × (ahead_staged self.new ≡ ahead_staged self.old)) }
        ensures free { is_some plan.now.kept ≡ false → adds_nothing plan.now.changes ≡ true → length (event_bytes (event_of event.now)) ≤ max_payload → IfErr result (λ e. e ≡ DiskFault) }
        ensures account { HasAccount (ahead_journal self.old) (ahead_journal self.new) }
        ensures failed { has_failed (ahead_journal self.new) ≡ tells_fault result }
        ensures aside { journal_aside (ahead_journal self.new) ≡ journal_aside (ahead_journal self.old) }
    {
        let Ok(()) = self.engine.reserve(plan) else {
            return Err(Refusal::OutOfMemory);
        };
        match self.recorder.stage(event) {
            Ok(()) => {
                self.staged = self.staged.saturating_add(1);
                Ok(())
            }
            Err(refusal) => Err(refusal),
        }
    }
}

// Whether a call was answered with a failure of the disk.
fn is_disk_fault(answer: &Answer) -> bool
    ensures { result ≡ is_disk_fault answer.now }
{
    match answer {
        Err(refusal) => is_disk_refusal(refusal),
        Ok(_) => false,
    }
}

fn is_disk_refusal(refusal: &Refusal) -> bool
    ensures { result ≡ is_disk_fault (Err refusal.now) }
{
    match refusal {
        Refusal::DiskFault => true,
        _ => false,
    }
}

// Drops a plan that isn't carried out.
fn let_go(plan: Plan) {
    drop(plan)
}
