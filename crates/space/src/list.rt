// The list of shifts that all processes share: the shape of its tuples, and the questions that the policies ask of it.
ghost use Rattle.std.specs.Prelude.{◌≡◌};
ghost use Rattle.space.specs.Lists.{is_list_tuple, is_filled, is_listed};
ghost use Rattle.space.specs.Spaces.{held as held·};

use crate::space::{Space, held};
use tuple::{LIST_TUPLE, Tuple, has_shape};

// (word 3, count, count, count, offset)
pub fn is_list_tuple(tuple: Tuple) -> bool
    ensures { result ≡ is_list_tuple tuple }
{
    has_shape(tuple, LIST_TUPLE)
}

// Whether a list tuple of this position stands in the space.
pub fn is_filled(space: Space, position: u64) -> bool
    ensures { result ≡ is_filled (held· space) position }
{
    held(&space).iter().any(|tuple| tuple.fields[1].value == position && is_list_tuple(*tuple))
}

// Whether this process and serial are listed in the space, at any position, with any shift or bottom.
pub fn is_listed(space: Space, process: u64, serial: u64) -> bool
    ensures { result ≡ is_listed (held· space) process serial }
{
    held(&space).iter().any(|tuple| {
        tuple.fields[2].value == process && tuple.fields[3].value == serial && is_list_tuple(*tuple)
    })
}
