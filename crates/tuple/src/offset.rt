// Offsets in hundredths of a needle space, signed, or bottom, and the number that stands for each in a field.
ghost use Rattle.std.specs.Prelude.{◌≡◌};
ghost use Rattle.tuple.specs.Offsets.{coded_of, decoded_of};

use crate::bounds::{LARGEST_CODE, LARGEST_OFFSET};
use crate::refusal::Refusal;

// The code of bottom.
pub const BOTTOM: u64 = 0;

// An offset: bottom (01's default mark), or hundredths of a needle space.
#[derive(Clone, Copy)]
pub enum Offset {
    Bottom,
    Hundredths(i32),
}

impl Offset {
    // The number that stands for an offset: 0 for bottom, 1 + 2z for z from zero up, -2z for z below zero.
    #[tactic(auto, unfolding(crate::specs::Offsets::coded_of))]
    pub fn encode(self) -> Result<u64, Refusal>
        ensures { result ≡ coded_of self }
    {
        match self {
            Offset::Bottom => Ok(BOTTOM),
            Offset::Hundredths(z) => {
                if z < -LARGEST_OFFSET || LARGEST_OFFSET < z {
                    return Err(Refusal::Beyond);
                }
                if 0 <= z {
                    Ok((1 + 2 * z) as u64)
                } else {
                    Ok((-2 * z) as u64)
                }
            }
        }
    }

    // The offset that a number stands for.
    #[tactic(auto, unfolding(crate::specs::Offsets::decoded_of))]
    pub fn decode(code: u64) -> Result<Offset, Refusal>
        ensures { result ≡ decoded_of code }
    {
        if LARGEST_CODE < code {
            return Err(Refusal::Beyond);
        }
        if code == BOTTOM {
            return Ok(Offset::Bottom);
        }
        let half = (code / 2) as i32;
        if code % 2 == 1 {
            Ok(Offset::Hundredths(half))
        } else {
            Ok(Offset::Hundredths(-half))
        }
    }
}
