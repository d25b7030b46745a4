// A group of calls, which a desk asks for together.
ghost use Rattle.std.specs.Prelude.{◌≡◌, ◌≢◌, ◌++◌, ◌∷◌, [], ℕ, List, Some, None, is_some, false, map, true};
ghost use Rattle.std.specs.List.{All};
ghost use Rattle.sb_desk.specs.Posts.{asked_of, group_entries};
ghost use Rattle.sb_desk.specs.Spared.{SparesFrom};
ghost use Rattle.sb_journal.specs.Disks.{AreQuiet, NoneFell, OneFault, SameHonesty};
ghost use Rattle.sb_machine.specs.Accounts.{changing};
ghost use Rattle.sb_machine.specs.Ordered.{IsActInOrder};
ghost use Rattle.sb_machine.specs.declared.history.Entry.{Entry};
ghost use Rattle.sb_machine.specs.declared.state.State.{State};
ghost use Rattle.sb_node.specs.Groups.{has_fault, FollowGroups};
ghost use Rattle.sb_node.specs.Nodes.{node_disks, node_log, node_state, node_stopped, IsKept};
ghost use Rattle.sb_node.specs.Serving.{node_goes_on, node_origin, node_report, opened_disks, with_entries, StandsFor};
ghost use Rattle.sb_node.specs.Steps.{is_spared, IsStep};

use crate::Node;
use crate::counting::{count_posts, count_sealed};
use crate::refusing::refuse_all;
use sb_desk::Post;
use sb_outside::Disk;
use std::snapshot::Snapshot;

impl<D: Disk> Node<D> {
    /// Makes these calls one behind another, and makes them safe at once. Where its journal has grown and it goes on by itself, that is
    /// done before. Where a disk fails in either, each of them is answered `DiskFault`.
    pub(crate) fn make_group(&mut self, posts: &mut [Post])
        requires order { All (λ p. IsActInOrder p.call.act) posts.old }
        ensures stands { (start : State) (h : List Entry) → StandsFor self.old start h → StandsFor self.new start (h ++ group_entries posts.new) }
        ensures asked { map asked_of posts.new ≡ map asked_of posts.old }
        ensures went { All (λ p. is_some p.went ≡ true) posts.new }
        ensures origin { node_origin self.new ≡ node_origin self.old }
    {
        if posts.is_empty() {
            return;
        }
        let Ok(()) = self.rest() else {
            refuse_all(posts, None, &mut self.numbers);
            return;
        };
        self.make_all(posts);
    }

    // Makes them with nothing done before.
    fn make_all(&mut self, posts: &mut [Post])
        requires order { All (λ p. IsActInOrder p.call.act) posts.old }
        requires some { posts.old ≢ [] }
        ensures step { IsStep (node_log self.old) (group_entries posts.new) (node_log self.new) }
        ensures spares { SparesFrom is_spared (node_log self.old) (group_entries posts.new) }
        ensures numbers { node_report self.new ≡ with_entries (node_report self.old) (node_log self.old) (group_entries posts.new) }
        ensures kept { IsKept self.old → node_stopped self.new ≡ None → IsKept self.new }
        ensures follows { IsKept self.old → node_stopped self.old ≡ None → FollowGroups false (node_log self.old) (group_entries posts.new ∷ []) (node_disks self.old) (node_disks self.new) }

        // Once it has stopped nothing is done.
        ensures stays { (n : ℕ) → node_stopped self.old ≡ Some n
            → (node_stopped self.new ≡ Some n) × (node_disks self.new ≡ node_disks self.old) × (node_state self.new ≡ node_state self.old) × (has_fault (group_entries posts.new) ≡ false) × (changing (node_log self.old) (group_entries posts.new) ≡ []) }

        // Where it stops, a disk failed, and it holds the state before.
        ensures failed { node_stopped self.old ≡ None → (n : ℕ) → node_stopped self.new ≡ Some n
            → OneFault (node_disks self.old) (node_disks self.new) n × (node_state self.new ≡ node_state self.old) × (has_fault (group_entries posts.new) ≡ true) }
        ensures quiet { node_stopped self.new ≡ None → AreQuiet (node_disks self.old) (node_disks self.new) }
        ensures asked { map asked_of posts.new ≡ map asked_of posts.old }
        ensures went { All (λ p. is_some p.went ≡ true) posts.new }
        ensures later { NoneFell (node_disks self.old) (node_disks self.new) }
        ensures honesty { SameHonesty (node_disks self.old) (node_disks self.new) }
        ensures origin { opened_disks self.new ≡ opened_disks self.old }
        ensures goes_on { node_goes_on self.new ≡ node_goes_on self.old }
    {
        if let Some(faults) = self.stopped {
            refuse_all(posts, Some(faults), &mut self.numbers);
            return;
        }
        let Ok(count) = self.ahead.carry_out(posts) else {
            self.stopped = Some(self.ahead.faults());
            refuse_all(posts, None, &mut self.numbers);
            return;
        };
        self.sealed = Snapshot::of(&self.ahead.engine);
        count_sealed(&mut self.numbers, &mut self.groups, count);
        count_posts(&mut self.numbers, posts);
    }
}
