// One record of a script: the call that stands at a position, made on a space.
ghost use Rattle.std.specs.Prelude.{◌≡◌};
ghost use Rattle.script.specs.Steps.{step_at};

use calls::{Effect, judge_unchecked};
use record::Cursor;
use space::Space;
use tuple::{Call, Refusal};

// The position behind a record, its call, and the reply with what becomes of the tuples.
#[derive(Clone, Copy)]
pub struct Stepped {
    pub next: Cursor,
    pub call: Call,
    pub effect: Effect,
}

// The record at a position, on a space whose places are not tested: docs/DECISIONS.md, "Functions that leave a test out"; or the refusal of one that can't be
// read.
#[tactic(auto, unfolding(crate::specs::Steps::step_at))]
pub fn step(script: &[u8], cursor: Cursor, space: Space) -> Result<Stepped, Refusal>
    ensures { result ≡ step_at script.now cursor.at space }
{
    let read = cursor.call(script);
    let next = read.next?;
    let call = read.call;
    let effect = judge_unchecked(space, call);
    Ok(Stepped { next, call, effect })
}
