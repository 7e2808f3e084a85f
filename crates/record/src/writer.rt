// Writing a record: the call's fault, then the room, and only then the bytes.
ghost use Rattle.std.specs.Prelude.{◌≡◌, ◌+◌, ◌≤◌, length};
ghost use Rattle.std.proofs.lemmas.List.Edits.{sets};
ghost use Rattle.record.specs.Writing.{field_bytes, tuple_bytes, part_bytes, call_bytes, written_of, left_of};
ghost use Rattle.record.specs.Private.{Writable, WritableField, WritablePart, WritableCall};
ghost use Rattle.record.specs.Heads.{head_number};
ghost use Rattle.varint.specs.Reading.{largest};
ghost use Rattle.varint.specs.Writing.{bytes_of, width_of};

use tuple::{Call, DEFINED, Field, Refusal, Tuple};

// Puts the record of a call at the start of buffer.
#[tactic(auto, unfolding(crate::specs::Writing::written_of, crate::specs::Writing::left_of))]
pub fn write(call: Call, buffer: &mut [u8]) -> Result<usize, Refusal>
    ensures value { result ≡ written_of call (length buffer.old) }
    ensures buffer_after { buffer.new ≡ left_of call buffer.old }
{
    call.fault()?;
    let n = call_width(call);
    if buffer.len() < n {
        return Err(Refusal::NoRoom);
    }
    put_call(buffer, call);
    Ok(n)
}

// ---- how many bytes

fn call_width(call: Call) -> usize
    requires { WritableCall call }
    ensures { result ≡ length (call_bytes call) }
{
    let code = call.code;
    let template = call.template;
    let entry = call.entry;
    let numbers = varint::width(u64::from(call.process)) + varint::width(u64::from(code));
    let first = part_width(template, tuple::uses_template(code));
    let second = part_width(entry, tuple::uses_entry(code));
    numbers + first + second
}

fn part_width(tuple: Tuple, used: bool) -> usize
    requires { WritablePart used tuple }
    ensures { result ≡ length (part_bytes used tuple) }
{
    if used { tuple_width(tuple) } else { 0 }
}

fn tuple_width(tuple: Tuple) -> usize
    requires { Writable tuple }
    ensures { result ≡ length (tuple_bytes tuple) }
{
    let mut n = varint::width(tuple.count as u64);
    for field in &tuple.fields[..tuple.count] {
        n += field_width(*field);
    }
    n
}

fn field_width(field: Field) -> usize
    requires { WritableField field }
    ensures { result ≡ length (field_bytes field) }
{
    let head = varint::width(head_number(field));
    if field.state == DEFINED {
        head + varint::width(field.value)
    } else {
        head
    }
}

// ---- the bytes

fn put_call(buffer: &mut [u8], call: Call)
    requires writable_call { WritableCall call }
    requires call_in_bounds { length (call_bytes call) ≤ length buffer.old }
    ensures { buffer.new ≡ sets buffer.old 0 (call_bytes call) }
{
    let code = call.code;
    let template = call.template;
    let entry = call.entry;
    let after_process = put_number(buffer, 0, u64::from(call.process));
    let after_code = put_number(buffer, after_process, u64::from(code));
    let after_template = put_part(buffer, after_code, template, tuple::uses_template(code));
    put_part(buffer, after_template, entry, tuple::uses_entry(code));
}

fn put_part(buffer: &mut [u8], at: usize, tuple: Tuple, used: bool) -> usize
    requires writable_part { WritablePart used tuple }
    requires tuple_in_bounds { at + length (part_bytes used tuple) ≤ length buffer.old }
    ensures value { result ≡ at + length (part_bytes used tuple) }
    ensures buffer_after { buffer.new ≡ sets buffer.old at (part_bytes used tuple) }
{
    if used {
        put_tuple(buffer, at, tuple)
    } else {
        at
    }
}

fn put_tuple(buffer: &mut [u8], at: usize, tuple: Tuple) -> usize
    requires writable { Writable tuple }
    requires tuple_in_bounds { at + length (tuple_bytes tuple) ≤ length buffer.old }
    ensures value { result ≡ at + length (tuple_bytes tuple) }
    ensures buffer_after { buffer.new ≡ sets buffer.old at (tuple_bytes tuple) }
{
    let mut place = put_number(buffer, at, tuple.count as u64);
    for field in &tuple.fields[..tuple.count] {
        place = put_field(buffer, place, *field);
    }
    place
}

fn put_field(buffer: &mut [u8], at: usize, field: Field) -> usize
    requires writable_field { WritableField field }
    requires field_in_bounds { at + length (field_bytes field) ≤ length buffer.old }
    ensures value { result ≡ at + length (field_bytes field) }
    ensures buffer_after { buffer.new ≡ sets buffer.old at (field_bytes field) }
{
    let place = put_number(buffer, at, head_number(field));
    if field.state == DEFINED {
        put_number(buffer, place, field.value)
    } else {
        place
    }
}

fn head_number(field: Field) -> u64
    requires { WritableField field }
    ensures value { result ≡ head_number field }
    ensures upper_bound { result ≤ largest }
{
    4 * u64::from(field.kind) + u64::from(field.state)
}

#[tactic(auto, using(crate::proofs::WrittenLaws::number_written))]
fn put_number(buffer: &mut [u8], at: usize, value: u64) -> usize
    requires value_le_largest { value ≤ largest }
    requires value_in_bounds { at + width_of value ≤ length buffer.old }
    ensures value { result ≡ at + width_of value }
    ensures buffer_after { buffer.new ≡ sets buffer.old at (bytes_of value) }
{
    // It is held and has room, so it is written and `at` is never answered.
    varint::write(buffer, at, value).unwrap_or(at)
}
