// Whether the script of a space under policies 0 to 3 ends in it, by the table of the tuples before each.
ghost use Rattle.std.specs.Prelude.{◌≡◌, true, false, cond, eqb, length};
ghost use Rattle.std.specs.List.{list_any};
ghost use Rattle.std.specs.Result.{is_ok};
ghost use Rattle.calls.specs.Turns.{first_refusal};
ghost use Rattle.dump.specs.Dumps.{is_reached};
ghost use Rattle.dump.specs.Private.{decides_too};
ghost use Rattle.policy.specs.Policies.{lent_verdict};
ghost use Rattle.space.specs.Bounds.{table_places};
ghost use Rattle.space.specs.Configs.{has_list};
ghost use Rattle.space.specs.Spaces.{well_formed};
ghost use Rattle.space.specs.Tables.{belongs, entered, fits_table};
ghost use Rattle.tuple.specs.Fields.{cas};

use crate::appending::call_of;
use calls::lent_refusal;
use space::{Config, PLACES, Questions, Space, Tabled, enter};
use tuple::{CAS, Call, DECISION, DECISION_ENTRY, Tuple, WEAK_ENTRY, has_shape};

// Whether each tuple's call is permitted by the table of the tuples before it and, if it is a cas, none of those holds it. A proposal that belongs in the
// table is not judged: in a well-formed space it may be proposed, and its place is free. The space is handed to nobody in the loop, so that it is not copied.
pub(crate) fn is_reached_tabled(space: Space) -> bool
    requires space_value { well_formed space ≡ true }
    requires config_value { has_list space.config ≡ false }
    ensures { result ≡ is_reached space }
{
    let config = space.config;
    let count = space.count;
    let mut table = [0u64; PLACES];
    for (i, tuple) in space.tuples[..count].iter().enumerate() {
        let mut first = i;
        if !enters(config, &mut table, *tuple) {
            let call = call_of(config, *tuple);
            if !is_permitted(config, &table, call) {
                return false;
            }
            first = first_asked(call.code, i);
        }
        if is_decided(&space.tuples[first..i], *tuple) {
            return false;
        }
    }
    true
}

// Enters a tuple in the table, in which it fits, and answers whether it belongs there: whether its place was free, and is taken now.
fn enters(config: Config, table: &mut [u64; PLACES], tuple: Tuple) -> bool
    requires tuple_value { fits_table config table.old tuple ≡ true }
    requires table_len { length table.old ≡ table_places }
    ensures value { result ≡ belongs config tuple }
    ensures table_after { table.new ≡ entered config table.old tuple }
{
    let second = tuple.fields[1];
    let third = tuple.fields[2];
    let was_taken = Tabled { config, table }.is_taken(second.value, third.value);
    enter(config, table, tuple);
    !was_taken && Tabled { config, table }.is_taken(second.value, third.value)
}

// Whether a call meets none of the refusals 3 to 7, 12 and 13, where the policy does not ask about the tuples.
#[tactic(auto, using(crate::proofs::TablingSteps::permitted))]
fn is_permitted(config: Config, table: &[u64; PLACES], call: Call) -> bool
    ensures { result ≡ is_ok (first_refusal config call (lent_verdict config table.now call)) }
{
    call.fault().is_ok() && lent_refusal(config, table, call).is_ok()
}

// The place from which on the tuples before one are asked whether they hold its call: a cas is held by any of them, an out by none.
fn first_asked(code: u32, at: usize) -> usize
    ensures { result ≡ cond (eqb code cas) 0 at }
{
    if code == CAS { 0 } else { at }
}

// Whether one of these tuples is a decision of the round of another, with as many fields.
fn is_decided(tuples: &[Tuple], tuple: Tuple) -> bool
    ensures { result ≡ list_any (decides_too tuple) tuples.now }
{
    tuples.iter().any(|other| decides_too(tuple, *other))
}

// Whether a tuple is a decision of the round of another, with as many fields. Most tuples of the round are proposals.
fn decides_too(tuple: Tuple, other: Tuple) -> bool
    ensures { result ≡ decides_too tuple other }
{
    let round = tuple.fields[1];
    let word = other.fields[0];
    let asked = other.fields[1];
    if asked.value != round.value || word.value != DECISION {
        return false;
    }
    if tuple.count == 4 {
        has_shape(other, DECISION_ENTRY)
    } else {
        has_shape(other, WEAK_ENTRY)
    }
}
