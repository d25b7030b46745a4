// What calls are answered that aren't carried out, since a disk failed or had failed.
ghost use Rattle.std.specs.Prelude.{◌≡◌, ◌∷◌, [], Some, filter, is_some, length, map, true};
ghost use Rattle.std.specs.List.{All};
ghost use Rattle.sb_desk.specs.Entries.{is_refused};
ghost use Rattle.sb_desk.specs.Posts.{asked_of, group_entries, post_entries};
ghost use Rattle.sb_node.specs.Posts.{refusal_by, refused_entries, refused_entry};
ghost use Rattle.sb_node.specs.Serving.{raised};

use crate::counting::count_posts;
use sb_desk::{Post, Report, Went};
use sb_machine::Refusal;
use std::mem;

// Each of these calls is answered that the disk failed, or, where it had before, with its count of faults then; that counts among the
// numbers.
pub(crate) fn refuse_all(posts: &mut [Post], stopped: Option<u64>, numbers: &mut Report)
    ensures refused { group_entries posts.new ≡ refused_entries stopped posts.new }
    ensures asked { map asked_of posts.new ≡ map asked_of posts.old }
    ensures went { All (λ p. is_some p.went ≡ true) posts.new }
    ensures entries { numbers.new.entries ≡ raised numbers.old.entries (length (group_entries posts.new)) }
    ensures changing { numbers.new.changing ≡ numbers.old.changing }
    ensures refusals { numbers.new.refused ≡ raised numbers.old.refused (length (filter is_refused (group_entries posts.new))) }
{
    refuse_each(posts, stopped);
    count_posts(numbers, posts);
}

// Puts what came of a post's call into it.
pub(crate) fn put_went(post: &mut Post, went: Went)
    ensures { post.new ≡ record post.old { went = Some went } }
{
    drop(mem::replace(&mut post.went, Some(went)));
}

fn refuse_each(posts: &mut [Post], stopped: Option<u64>)
    ensures refused { group_entries posts.new ≡ refused_entries stopped posts.new }
    ensures asked { map asked_of posts.new ≡ map asked_of posts.old }
    ensures went { All (λ p. is_some p.went ≡ true) posts.new }
{
    for post in posts.iter_mut() {
        refuse(post, stopped);
    }
}

fn refuse(post: &mut Post, stopped: Option<u64>)
    ensures refused { post_entries post.new ≡ refused_entry stopped post.new ∷ [] }
    ensures asked { asked_of post.new ≡ asked_of post.old }
    ensures went { is_some post.new.went ≡ true }
{
    put_went(
        post,
        Went {
            answer: Err(refusal_of(stopped)),
            tick: None,
        },
    );
}

fn refusal_of(stopped: Option<u64>) -> Refusal
    ensures { result ≡ refusal_by stopped }
{
    match stopped {
        Some(faults) => Refusal::Stopped { faults },
        None => Refusal::DiskFault,
    }
}
