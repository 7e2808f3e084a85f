// Matching an entry against a template, and the oldest tuple of a space that matches.
ghost use Rattle.std.specs.Prelude.{◌≡◌, ◌≤◌, length, min, take};
ghost use Rattle.tuple.specs.Matching.{field_matches, matched_of};

use crate::bounds::{FIELDS, TUPLES};
use crate::field::{DEFINED, Field, Tuple};

// The place of the oldest of these tuples that matches the template, and that tuple.
pub fn oldest(tuples: &[Tuple], template: Tuple) -> Option<(usize, Tuple)>
    ensures { result ≡ matched_of tuples.now template }
{
    let places = template.count.min(FIELDS);
    let asked = first_fields(&template, places);
    'tuples: for (at, tuple) in tuples.iter().enumerate() {
        if tuple.count != template.count {
            continue 'tuples;
        }
        let given = first_fields(tuple, places);
        for i in 0..places {
            if !field_matches(asked[i], given[i]) {
                continue 'tuples;
            }
        }
        return Some((at, *tuple));
    }
    None
}

// The first `count` of the tuples of a space; a count above the places means all of them.
pub fn first(tuples: &[Tuple; TUPLES], count: usize) -> &[Tuple]
    ensures { result.now ≡ take count tuples.now }
{
    &tuples[..count.min(TUPLES)]
}

// The first so many of a tuple's six fields.
fn first_fields(tuple: &Tuple, places: usize) -> &[Field]
    requires { places ≤ 6 }
    ensures first { result.now ≡ take places tuple.now.fields }
    ensures six { length tuple.now.fields ≡ 6 }
{
    &tuple.fields[..places]
}

// The smaller of two numbers.
pub fn least(a: usize, b: usize) -> usize
    ensures { result ≡ min a b }
{
    a.min(b)
}

// Whether a field of an entry matches the template's field at its place.
#[tactic(auto, unfolding(crate::specs::Matching::field_matches))]
pub fn field_matches(template: Field, entry: Field) -> bool
    ensures { result ≡ field_matches template entry }
{
    let free = template.state != DEFINED;
    let same = template.value == entry.value;
    template.kind == entry.kind && (free | same)
}
