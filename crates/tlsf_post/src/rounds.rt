//! A round: all posters of a mailbox come back, and go out again.
ghost use Rattle.std.specs.Prelude.{◌≡◌, ◌≢◌, true, false, map, All, vec_len, vec_capacity};
ghost use Rattle.crossbeam_queue.specs.Passes.{view, IsPassOf};
ghost use Rattle.tlsf_post.specs.Rule.{owner_view, poster_view, posts_of};
ghost use Rattle.tlsf_post.specs.Mailboxes.{number_of, below_but};
ghost use Rattle.tlsf_post.specs.Rounds.{next_but, IsOfPass, CameBack};

use crate::post::Post;
use crate::poster_end::PosterEnd;
use crate::rule::{OneTake, OwnNumber, PosterBack, PosterOut, Queue};
use crate::view::View;
use crossbeam_queue::Pass;

/// The posters come back, the last one first, and go out again with all that they have put.
pub(crate) fn come_back(
    queue: &Queue,
    pass: &mut Pass<Post, View>,
    own: u32,
    posters: &mut Vec<PosterEnd>,
)
    requires pass { IsPassOf queue.now pass.old × ((view pass.old).takes ≡ true) × ((view pass.old).posts ≡ false) }
    requires own { ((view pass.old).plan.owner ≡ own) × ((view pass.old).number ≢ own) }
    requires posters { All (IsOfPass pass.old) posters.old.items }
    requires numbers { map number_of posters.old.items ≡ below_but own (view pass.old).number }
    ensures pass { IsPassOf queue.now pass.new × (pass.new.table_id ≡ pass.old.table_id) }
    ensures round { CameBack (view pass.old) posters.old.items (view pass.new) posters.new.items }
    ensures posters { All (IsOfPass pass.old) posters.new.items }
    ensures room { (vec_capacity posters.new ≡ vec_capacity posters.old) × (vec_len posters.new ≡ vec_len posters.old) }
{
    let Some(
        PosterEnd {
            queue: handle,
            pass: theirs,
            from,
        },
    ) = posters.pop()
    else {
        queue.learn_as::<OneTake>(pass);
        return;
    };
    queue.absorb::<PosterBack>(pass, theirs);
    come_back(queue, pass, own, posters);
    let back = send_back(queue, pass, own, from);
    posters.push_reserved(PosterEnd {
        queue: handle,
        pass: back,
        from,
    });
}

/// A poster goes out again, and the owner's own number after it is passed over.
fn send_back(queue: &Queue, pass: &mut Pass<Post, View>, own: u32, from: u32) -> Pass<Post, View>
    requires pass { IsPassOf queue.now pass.old × ((view pass.old).takes ≡ true) × ((view pass.old).posts ≡ false) }
    requires number { ((view pass.old).plan.owner ≡ own) × ((view pass.old).number ≡ from) × (from ≢ own) }
    ensures pass { IsPassOf queue.now pass.new × (pass.new.table_id ≡ pass.old.table_id) }
    ensures next { view pass.new ≡ owner_view (view pass.old).plan (next_but own from) (view pass.old).put (view pass.old).got }
    ensures back { IsPassOf queue.now result
        × (view result ≡ poster_view (view pass.old).plan from (posts_of from (view pass.old).put) (posts_of from (view pass.old).got)) }
{
    let back = queue.another::<PosterOut>(pass);
    if from < own && own - from == 1 {
        queue.another::<OwnNumber>(pass);
    }
    back
}
