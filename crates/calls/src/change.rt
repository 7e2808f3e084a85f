// What becomes of the tuples of a space, and carrying it out.
ghost use Rattle.std.specs.Prelude.{◌≡◌};
ghost use Rattle.calls.specs.Changes.{carried_out};

use space::{Space, enter};
use tuple::{TUPLES, Tuple};

#[derive(Clone, Copy)]
pub enum Change {
    // The tuples stay as they are.
    Keep,
    // The call's entry goes behind the newest.
    Append,
    // The tuple at a place is taken off.
    Remove(usize),
}

// The space after a change. Neither the space nor the entry is tested (docs/DECISIONS.md, "Functions that leave a test out"): an entry that has no room,
// a place that holds no tuple, and a count above 256 change nothing. All in one function, so that the space is copied once.
#[tactic(auto, unfolding(crate::specs::Changes::carried_out))]
pub fn carry_out_unchecked(space: Space, entry: Tuple, change: Change) -> Space
    ensures { result ≡ carried_out space entry change }
{
    let count = space.count;
    let mut next = space;
    match change {
        Change::Keep => {}
        Change::Append => {
            if count < TUPLES {
                next.tuples[count] = entry;
                next.count = count + 1;
                enter(next.config, &mut next.table, entry);
            }
        }
        Change::Remove(at) => {
            if count <= TUPLES && at < count {
                next.tuples.copy_within(at + 1..count, at);
                next.tuples[count - 1] = Tuple::blank();
                next.count = count - 1;
            }
        }
    }
    next
}
