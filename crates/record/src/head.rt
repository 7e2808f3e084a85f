// The head of a field: 4 times its kind, plus its state.
ghost use Rattle.std.specs.Prelude.{◌≡◌};
ghost use Rattle.record.specs.Heads.{head_of};

use tuple::{COUNT, DEFINED, FORMAL, OFFSET, PROCESS_SET, WILDCARD, WORD};

// What a head number says: the kind and the state of one of the twelve heads.
pub(crate) fn head_of(number: u64) -> Option<(u32, u32)>
    ensures { result ≡ head_of number }
{
    match number {
        4 => Some((WORD, DEFINED)),
        5 => Some((WORD, WILDCARD)),
        6 => Some((WORD, FORMAL)),
        8 => Some((COUNT, DEFINED)),
        9 => Some((COUNT, WILDCARD)),
        10 => Some((COUNT, FORMAL)),
        12 => Some((OFFSET, DEFINED)),
        13 => Some((OFFSET, WILDCARD)),
        14 => Some((OFFSET, FORMAL)),
        16 => Some((PROCESS_SET, DEFINED)),
        17 => Some((PROCESS_SET, WILDCARD)),
        18 => Some((PROCESS_SET, FORMAL)),
        0..=3 | 7 | 11 | 15 | 19..=0xFFFF_FFFF_FFFF_FFFF => None,
    }
}
