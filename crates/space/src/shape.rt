// The shape of a proposal.
ghost use Rattle.std.specs.Prelude.{◌≡◌};
ghost use Rattle.space.specs.Shapes.{is_proposal};

use tuple::{PROPOSAL, Tuple, has_shape};

// (word 1, count, count, offset)
pub fn is_proposal(tuple: Tuple) -> bool
    ensures { result ≡ is_proposal tuple }
{
    has_shape(tuple, PROPOSAL)
}
