// The numbers of a node's steps; each stands still at 2^64 - 1.
ghost use Rattle.std.specs.Prelude.{◌≡◌, ◌+◌, ℕ, filter, length};
ghost use Rattle.sb_desk.specs.Entries.{is_refused};
ghost use Rattle.sb_desk.specs.Posts.{group_entries, post_entries};
ghost use Rattle.sb_node.specs.Serving.{raised, refusals};
ghost use Rattle.sb_node.specs.Steps.{tick_events};

use sb_desk::{Post, Report};
use sb_machine::Answer;

pub(crate) fn no_numbers() -> Report
    ensures { (result.entries ≡ 0) × (result.changing ≡ 0) × (result.refused ≡ 0) }
{
    Report {
        entries: 0,
        changing: 0,
        refused: 0,
    }
}

// So many events, which changed the state, were made safe together.
pub(crate) fn count_sealed(numbers: &mut Report, groups: &mut u64, count: u64)
    ensures { (k : ℕ) → count ≡ raised 0 k → numbers.new ≡ record numbers.old { changing = raised numbers.old.changing k } }
{
    if count == 0 {
        return;
    }
    numbers.changing = numbers.changing.saturating_add(count);
    *groups = groups.saturating_add(1);
}

// Steps more: the calls of these posts with what they came to.
pub(crate) fn count_posts(numbers: &mut Report, posts: &[Post])
    ensures entries { numbers.new.entries ≡ raised numbers.old.entries (length (group_entries posts.now)) }
    ensures changing { numbers.new.changing ≡ numbers.old.changing }
    ensures refused { numbers.new.refused ≡ raised numbers.old.refused (length (filter is_refused (group_entries posts.now))) }
{
    for post in posts {
        count_post(numbers, post);
    }
}

fn count_post(numbers: &mut Report, post: &Post)
    ensures entries { numbers.new.entries ≡ raised numbers.old.entries (length (post_entries post.now)) }
    ensures changing { numbers.new.changing ≡ numbers.old.changing }
    ensures refused { numbers.new.refused ≡ raised numbers.old.refused (length (filter is_refused (post_entries post.now))) }
{
    if let Some(went) = &post.went {
        count_step(numbers, went.tick, &went.answer);
    }
}

// One step more: its call was refused, and it had no tick.
pub(crate) fn count_refusal(numbers: &mut Report)
    ensures entries { numbers.new.entries ≡ raised numbers.old.entries 1 }
    ensures changing { numbers.new.changing ≡ numbers.old.changing }
    ensures refused { numbers.new.refused ≡ raised numbers.old.refused 1 }
{
    numbers.entries = numbers.entries.saturating_add(1);
    numbers.refused = numbers.refused.saturating_add(1);
}

// One step more: its call with this answer, and its tick if it had one.
pub(crate) fn count_step(numbers: &mut Report, tick: Option<u64>, answer: &Answer)
    ensures entries { numbers.new.entries ≡ raised numbers.old.entries (1 + length (tick_events tick)) }
    ensures changing { numbers.new.changing ≡ numbers.old.changing }
    ensures refused { numbers.new.refused ≡ raised numbers.old.refused (refusals answer.now) }
{
    numbers.entries = more_entries(numbers.entries, tick);
    numbers.refused = more_refusals(numbers.refused, answer);
}

fn more_entries(entries: u64, tick: Option<u64>) -> u64
    ensures { result ≡ raised entries (1 + length (tick_events tick)) }
{
    match tick {
        Some(_) => entries.saturating_add(2),
        None => entries.saturating_add(1),
    }
}

fn more_refusals(refused: u64, answer: &Answer) -> u64
    ensures { result ≡ raised refused (refusals answer.now) }
{
    match answer {
        Ok(_) => refused,
        Err(_) => refused.saturating_add(1),
    }
}
