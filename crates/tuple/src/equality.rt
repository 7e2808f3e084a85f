// Whether fields, tuples and calls are equal, number by number, unused parts too.
ghost use Rattle.std.specs.Prelude.{◌≡◌, nat_eq};
ghost use Rattle.std.specs.Cmp.{partial_equiv_from_equiv, and_equiv, on_equiv, nat_eq_equiv};
ghost use Rattle.std.specs.Cmp.Lexicographic.{pointwise, lists_equiv};
ghost use Rattle.std.specs.Ordering.{on, eq_of_both};
ghost use Rattle.tuple.specs.Equality.{same_field, same_field_equiv, same_call};

use crate::field::{Call, Field, Tuple};

// The tests of fields and tuples are written out: were they derived, as that of calls is, the library's test of two parts would come back through itself.
impl PartialEq for Field {
    ghost eq = { same_field };

    ghost laws = { partial_equiv_from_equiv same_field_equiv };

    #[tactic(auto, unfolding(crate::specs::Equality::same_field))]
    fn eq(&self, other: &Field) -> bool {
        self.kind == other.kind && self.state == other.state && self.value == other.value
    }
}

impl Eq for Field {
    ghost laws = { same_field_equiv };
}

impl PartialEq for Tuple {
    ghost eq = { eq_of_both (on (λ t. t.count) nat_eq) (on (λ t. t.fields) (pointwise same_field)) };

    ghost laws = { partial_equiv_from_equiv (and_equiv (on_equiv (λ t. t.count) nat_eq_equiv) (on_equiv (λ t. t.fields) (lists_equiv same_field_equiv))) };

    fn eq(&self, other: &Tuple) -> bool {
        self.count == other.count && self.fields == other.fields
    }
}

impl Eq for Tuple {
    ghost laws = { and_equiv (on_equiv (λ t. t.count) nat_eq_equiv) (on_equiv (λ t. t.fields) (lists_equiv same_field_equiv)) };
}

pub fn same_call(a: Call, b: Call) -> bool
    ensures { result ≡ same_call a b }
{
    a == b
}
