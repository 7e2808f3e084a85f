// What is wrong with a call that is handed in: none, or the first of the refusals 3 to 5 in record order, unused parts last.
ghost use Rattle.std.specs.Prelude.{◌≡◌, true, false, cond, ◌&&◌, ◌+◌, ◌*◌, leb, eqb};
ghost use Rattle.tuple.specs.Bounds.{places};
ghost use Rattle.tuple.specs.Faults.{is_entry, is_absent, field_fault, tuple_fault, part_fault, used_fault, call_fault, place_blank, is_blank, rest_from, rest_blank, uses_template, uses_entry};

use crate::bounds::FIELDS;
use crate::field::{
    CAS, Call, DEFINED, FORMAL, Field, OUT, PROCESS_SET, RDP, Tuple, WORD, largest,
};
use crate::refusal::{Refusal, Verdict};

impl Call {
    // The fault of a call.
    #[tactic(auto, unfolding(crate::specs::Faults::call_fault))]
    pub fn fault(self) -> Verdict
        ensures { result ≡ call_fault self }
    {
        let code = self.code;
        used_fault(self)?;
        if rest_blank(self.template, uses_template(code))
            && rest_blank(self.entry, uses_entry(code))
        {
            Ok(())
        } else {
            Err(Refusal::Misshapen)
        }
    }
}

impl Tuple {
    // Whether a tuple is an entry without fault, its unused parts zero: place by place and without a loop, since a space asks it of each of its tuples.
    pub fn is_entry(self) -> bool
        ensures { result ≡ is_entry self }
    {
        let count = self.count;
        is_count(count)
            && is_place(self.fields[0], 0 < count)
            && is_place(self.fields[1], 1 < count)
            && is_place(self.fields[2], 2 < count)
            && is_place(self.fields[3], 3 < count)
            && is_place(self.fields[4], 4 < count)
            && is_place(self.fields[5], 5 < count)
    }

    // Whether all of a tuple is zero.
    pub fn is_unused(self) -> bool
        ensures { result ≡ rest_blank self false }
    {
        let count = self.count as u64;
        let front = joined(self.fields[0]) | joined(self.fields[1]) | joined(self.fields[2]);
        let back = joined(self.fields[3]) | joined(self.fields[4]) | joined(self.fields[5]);
        count | front | back == 0
    }
}

// The fault of the parts that a call uses.
#[tactic(auto, unfolding(crate::specs::Faults::used_fault))]
fn used_fault(call: Call) -> Verdict
    ensures { result ≡ used_fault call }
{
    let code = call.code;
    if code < OUT || CAS < code {
        return Err(Refusal::Unknown);
    }
    part_fault(call.template, uses_template(code), false)?;
    part_fault(call.entry, uses_entry(code), true)
}

// Whether a call of this code has a template: rdp, inp and cas do.
#[tactic(auto, unfolding(crate::specs::Faults::uses_template))]
pub fn uses_template(code: u32) -> bool
    ensures { result ≡ uses_template code }
{
    RDP <= code && code <= CAS
}

// Whether a call of this code has an entry: out and cas do.
#[tactic(auto, unfolding(crate::specs::Faults::uses_entry))]
pub fn uses_entry(code: u32) -> bool
    ensures { result ≡ uses_entry code }
{
    code == OUT || code == CAS
}

// The fault of a template or an entry, if the call uses it.
#[tactic(auto, unfolding(crate::specs::Faults::part_fault))]
fn part_fault(tuple: Tuple, used: bool, entry: bool) -> Verdict
    ensures { result ≡ part_fault tuple used entry }
{
    if used {
        tuple_fault(tuple, entry)
    } else {
        Ok(())
    }
}

// The fault of a tuple: its count's, or the first of its fields'.
#[tactic(auto, unfolding(crate::specs::Faults::tuple_fault, crate::specs::Faults::fields_fault))]
fn tuple_fault(tuple: Tuple, entry: bool) -> Verdict
    ensures { result ≡ tuple_fault entry tuple }
{
    let count = tuple.count;
    if !is_count(count) {
        return Err(Refusal::Misshapen);
    }
    for field in &tuple.fields[..count] {
        field_fault(*field, entry)?;
    }
    Ok(())
}

// The fault of a field: its head's, then its value's.
#[tactic(auto, unfolding(crate::specs::Faults::field_fault, crate::specs::Faults::known_head))]
fn field_fault(field: Field, entry: bool) -> Verdict
    ensures { result ≡ field_fault entry field }
{
    if field.kind < WORD || PROCESS_SET < field.kind || FORMAL < field.state {
        return Err(Refusal::Unknown);
    }
    if entry && field.state != DEFINED {
        return Err(Refusal::Misshapen);
    }
    if field.state == DEFINED && largest(field.kind) < field.value {
        return Err(Refusal::Beyond);
    }
    Ok(())
}

// Whether the unused parts of a tuple are zero: all of it, if it is not used.
#[tactic(auto, unfolding(crate::specs::Faults::rest_blank))]
fn rest_blank(tuple: Tuple, used: bool) -> bool
    ensures { result ≡ rest_blank tuple used }
{
    if used {
        places_blank(tuple)
    } else {
        tuple.is_unused()
    }
}

// Whether the values of a tuple's undefined fields are zero, and the places behind its count.
fn places_blank(tuple: Tuple) -> bool
    ensures { result ≡ rest_from tuple.count tuple.fields }
{
    for (i, field) in tuple.fields.iter().enumerate() {
        if !place_blank(*field, i < tuple.count) {
            return false;
        }
    }
    true
}

// Whether the unused parts of a place are zero: all of it, if it is not used.
#[tactic(auto, unfolding(crate::specs::Faults::place_blank))]
fn place_blank(field: Field, used: bool) -> bool
    ensures { result ≡ place_blank field used }
{
    if used {
        field.state == DEFINED || field.value == 0
    } else {
        is_blank(field)
    }
}

fn is_blank(field: Field) -> bool
    ensures { result ≡ is_blank field }
{
    joined(field) == 0
}

// ---- the places of an entry

fn is_count(count: usize) -> bool
    ensures { result ≡ (leb 1 count && leb count places) }
{
    1 <= count && count <= FIELDS
}

// Whether a place of an entry is as it must be: a field without fault if it is used, and else blank.
fn is_place(field: Field, used: bool) -> bool
    ensures { result ≡ cond used (is_absent (field_fault true field)) (is_blank field) }
{
    if used {
        is_given(field)
    } else {
        is_blank(field)
    }
}

// Whether a field of an entry is without fault: defined, of a known kind and within it.
fn is_given(field: Field) -> bool
    ensures { result ≡ is_absent (field_fault true field) }
{
    let number = head(field);
    u64::from(WORD) <= number
        && number <= u64::from(PROCESS_SET)
        && field.value <= largest(field.kind)
}

// ---- the numbers of a field as one

// The kind and the state: as they stand in memory, so that they are loaded at once.
fn head(field: Field) -> u64
    ensures { result ≡ field.kind + field.state * 4_294_967_296 }
{
    u64::from(field.kind) + u64::from(field.state) * 4_294_967_296
}

// All three: 0 if each is.
fn joined(field: Field) -> u64
    ensures { eqb result 0 ≡ is_blank field }
{
    head(field) | field.value
}
