// The shapes of decisions and of the templates for them.
ghost use Rattle.std.specs.Prelude.{◌≡◌};
ghost use Rattle.policy.specs.Shapes.{is_weak_template, is_weak_entry, is_decision_template, is_decision, same_round};

use space::ROUNDS;
use tuple::{DECISION_ENTRY, DECISION_TEMPLATE, Tuple, WEAK_ENTRY, WEAK_TEMPLATE, has_shape};

// (word 2, count, open offset)
pub(crate) fn is_weak_template(tuple: Tuple) -> bool
    ensures { result ≡ is_weak_template tuple }
{
    has_shape(tuple, WEAK_TEMPLATE)
}

// (word 2, count, offset)
pub(crate) fn is_weak_entry(tuple: Tuple) -> bool
    ensures { result ≡ is_weak_entry tuple }
{
    has_shape(tuple, WEAK_ENTRY)
}

// (word 2, count, open offset, any processes)
pub(crate) fn is_decision_template(tuple: Tuple) -> bool
    ensures { result ≡ is_decision_template tuple }
{
    has_shape(tuple, DECISION_TEMPLATE)
}

// (word 2, count, offset, processes)
pub fn is_decision(tuple: Tuple) -> bool
    ensures { result ≡ is_decision tuple }
{
    has_shape(tuple, DECISION_ENTRY)
}

// Whether both tuples of a cas name one round, 0 to 7.
pub(crate) fn same_round(template: Tuple, entry: Tuple) -> bool
    ensures { result ≡ same_round template entry }
{
    let asked = template.fields[1];
    let given = entry.fields[1];
    let round = given.value;
    asked.value == round && round < ROUNDS
}
