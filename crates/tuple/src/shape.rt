// Shapes of tuples: whether a tuple has one, and the tuple that is made of one and its values.
ghost use Rattle.std.specs.Prelude.{◌≡◌, true};
ghost use Rattle.tuple.specs.Shapes.{is as is·, says as says·, is_undefined, fills as fills·, and_fills, has_shape, placed, made};

use crate::field::{COUNT, DEFINED, FORMAL, Field, Tuple, WILDCARD, WORD};

// The state of a place whose field has no value: any or open.
pub(crate) const UNDEFINED: u32 = 3;

// A place of a shape: the kind and the state of its field. A place of kind 0 is none, and asks nothing.
#[derive(Clone, Copy)]
pub struct Place {
    pub kind: u32,
    pub state: u32,
}

// (word, count, and up to three fields more), the first two defined
#[derive(Clone, Copy)]
pub struct Shape {
    pub count: usize,
    pub word: u64,
    pub third: Place,
    pub fourth: Place,
    pub fifth: Place,
}

// Whether a tuple has this shape.
#[tactic(auto, unfolding(crate::specs::Shapes::has_shape))]
pub fn has_shape(tuple: Tuple, shape: Shape) -> bool
    ensures { result ≡ has_shape shape tuple }
{
    tuple.count == shape.count
        && says(tuple.fields[0], WORD, shape.word)
        && is(tuple.fields[1], COUNT, DEFINED)
        && asks(shape.third, tuple.fields[2])
        && asks(shape.fourth, tuple.fields[3])
        && asks(shape.fifth, tuple.fields[4])
}

// Whether there is no such place, or its field is as the place asks.
fn asks(place: Place, field: Field) -> bool
    ensures { result ≡ and_fills true place field }
{
    place.kind == 0 || fills(place, field)
}

fn fills(place: Place, field: Field) -> bool
    ensures { result ≡ fills· place field }
{
    if place.state == UNDEFINED {
        is_undefined(field, place.kind)
    } else {
        is(field, place.kind, place.state)
    }
}

// Whether a field has this kind, and no value.
fn is_undefined(field: Field, kind: u32) -> bool
    ensures { result ≡ is_undefined kind field }
{
    is(field, kind, WILDCARD) || is(field, kind, FORMAL)
}

// The tuple of a shape whose second to fifth field have these values. A value is passed over where the shape has no place, or the place no value.
pub fn make(shape: Shape, second: u64, third: u64, fourth: u64, fifth: u64) -> Tuple
    ensures { result ≡ made shape second third fourth fifth }
{
    Tuple {
        count: shape.count,
        fields: [
            Field {
                kind: WORD,
                state: DEFINED,
                value: shape.word,
            },
            Field {
                kind: COUNT,
                state: DEFINED,
                value: second,
            },
            field_of(shape.third, third),
            field_of(shape.fourth, fourth),
            field_of(shape.fifth, fifth),
            Field::blank(),
        ],
    }
}

// The field of a place, with this value if the place has one.
fn field_of(place: Place, value: u64) -> Field
    ensures { result ≡ placed place value }
{
    let has_value = place.kind != 0 && place.state == DEFINED;
    Field {
        kind: place.kind,
        state: place.state,
        value: if has_value { value } else { 0 },
    }
}

// Whether a field has this kind and this state.
fn is(field: Field, kind: u32, state: u32) -> bool
    ensures { result ≡ is· kind state field }
{
    field.kind == kind && field.state == state
}

// Whether a field is defined, of this kind, with this value.
fn says(field: Field, kind: u32, value: u64) -> bool
    ensures { result ≡ says· kind value field }
{
    is(field, kind, DEFINED) && field.value == value
}
