// What a permitted call does: the reply, and what becomes of the tuples.
ghost use Rattle.std.specs.Prelude.{◌≡◌};
ghost use Rattle.calls.specs.Effects.{answered as answered·, refuses as refuses·, appends as appends·, effect_at as effect_at·, effect_by, effect as effect·};
ghost use Rattle.space.specs.Spaces.{held};

use crate::change::Change;
use space::Space;
use tuple::{Call, INP, OUT, Outcome, RDP, Refusal, Reply, TUPLES, Tuple};

// The reply to a call, and what becomes of the tuples.
#[derive(Clone, Copy)]
pub struct Effect {
    pub reply: Reply,
    pub change: Change,
}

// What a permitted call does.
pub(crate) fn perform(space: Space, call: Call) -> Effect
    ensures { result ≡ effect· (held space) call }
{
    let code = call.code;
    let count = space.count;
    if code == OUT {
        return effect_of(code, count, None);
    }
    let held = &space.tuples[..count.min(TUPLES)];
    effect_of(code, count, tuple::oldest(held, call.template))
}

// What a permitted call of a code does to so many tuples, by the oldest tuple that matches and its place. An out looks for none.
#[tactic(auto, unfolding(crate::specs::Effects::effect_by, crate::specs::Effects::effect_at))]
pub fn effect_of(code: u32, count: usize, found: Option<(usize, Tuple)>) -> Effect
    ensures { result ≡ effect_by code count found }
{
    match found {
        Some((i, tuple)) => effect_at(code, count, tuple, Some(i)),
        None => effect_at(code, count, Tuple::blank(), None),
    }
}

// The same by a tuple and the place where it was found, if it was: what was found nowhere may be any tuple, and is answered as it is.
#[tactic(auto, unfolding(crate::specs::Effects::effect_at))]
pub fn effect_at(code: u32, count: usize, tuple: Tuple, found: Option<usize>) -> Effect
    ensures { result ≡ effect_at· code count tuple found }
{
    if code == OUT {
        return appends(count, Outcome::Done);
    }
    match found {
        Some(i) => match code {
            RDP => answered(Outcome::Found, tuple, Change::Keep),
            INP => answered(Outcome::Found, tuple, Change::Remove(i)),
            _ => answered(Outcome::Held, tuple, Change::Keep),
        },
        None => match code {
            RDP | INP => answered(Outcome::None, tuple, Change::Keep),
            _ => appends(count, Outcome::Inserted),
        },
    }
}

// The entry is appended, or refused 8.
fn appends(count: usize, outcome: Outcome) -> Effect
    ensures { result ≡ appends· outcome count }
{
    if TUPLES <= count {
        return refused(Refusal::Full);
    }
    answered(outcome, Tuple::blank(), Change::Append)
}

// A refused call changes nothing.
pub fn refused(refusal: Refusal) -> Effect
    ensures { result ≡ refuses· refusal }
{
    answered(Outcome::Refused(refusal), Tuple::blank(), Change::Keep)
}

fn answered(outcome: Outcome, tuple: Tuple, change: Change) -> Effect
    ensures { result ≡ answered· outcome tuple change }
{
    Effect {
        reply: Reply { outcome, tuple },
        change,
    }
}
