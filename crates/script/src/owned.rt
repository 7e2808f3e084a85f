// What a call does to a space that its caller owns: how many of the tuples it looks at, and what it does by the oldest of them that matches.
ghost use Rattle.std.specs.Prelude.{◌≡◌, take};
ghost use Rattle.script.specs.Private.{sought_of, done_by};
ghost use Rattle.tuple.specs.Matching.{matched_of};

use calls::{Effect, effect_of, refused};
use tuple::{OUT, TUPLES, Tuple, Verdict, first, oldest};

// How many of so many tuples are looked at: none by a call that is refused, and none by an out.
pub(crate) fn sought(first: Verdict, code: u32, count: usize) -> usize
    ensures { result ≡ sought_of first code count }
{
    if first.is_err() {
        return 0;
    }
    if code == OUT { 0 } else { count }
}

// The oldest of the first `held` tuples that matches, and its place.
pub(crate) fn found_among(
    tuples: &[Tuple; TUPLES],
    held: usize,
    template: Tuple,
) -> Option<(usize, Tuple)>
    ensures { result ≡ matched_of (take held tuples.now) template }
{
    oldest(first(tuples, held), template)
}

// What a call does by its first refusal, or by the oldest tuple that matches and its place.
pub(crate) fn effect_by(
    first: Verdict,
    code: u32,
    count: usize,
    found: Option<(usize, Tuple)>,
) -> Effect
    ensures { result ≡ done_by first code count found }
{
    match first {
        Err(refusal) => refused(refusal),
        Ok(()) => effect_of(code, count, found),
    }
}
