// Writing a space as a script: what it is refused for, then the room, and only then the bytes.
ghost use Rattle.std.specs.Prelude.{◌≡◌, true, ◌+◌, ◌≤◌, leb, length, replicate, Ok};
ghost use Rattle.std.proofs.lemmas.List.Edits.{sets};
ghost use Rattle.dump.specs.Dumps.{dump_calls, dump_bytes, dump_most, written_of, left_of};
ghost use Rattle.dump.specs.Private.{Dumpable, writable};
ghost use Rattle.record.specs.Writing.{call_bytes};
ghost use Rattle.script.specs.Scripts.{set_up_bytes, records_bytes};
ghost use Rattle.space.specs.Configs.{sound};
ghost use Rattle.tuple.specs.Faults.{call_fault};

use crate::DUMP_BYTES;
use crate::appending::call_of;
use crate::reaching::is_reached;
use record::RECORD_BYTES;
use space::{Config, Space};
use tuple::{Call, Refusal, Verdict};

// Puts a script whose run ends in the space at the start of buffer, and answers its length. Refused 1 if the space is not well formed, then 15 if its
// policy is 5, then 14 if no script at all ends in it, then 10 if the buffer is shorter.
pub fn write(space: Space, buffer: &mut [u8]) -> Result<usize, Refusal>
    ensures value { result ≡ written_of space (length buffer.old) }
    ensures buffer_after { buffer.new ≡ left_of space buffer.old }
{
    writable(space)?;
    if !has_room(space, buffer.len()) {
        return Err(Refusal::NoRoom);
    }
    let config = space.config;
    put_set_up(buffer, config);
    Ok(put_records(buffer, set_up_width(config), space))
}

// Whether a space is written as a script, or what it is refused for whatever the buffer: 1, 15 or 14.
#[tactic(auto, unfolding(crate::specs::Private::writable))]
fn writable(space: Space) -> Verdict
    ensures { result ≡ writable space }
{
    if !space.is_well_formed() {
        return Err(Refusal::Unsound);
    }
    if space.config.has_announcements() {
        return Err(Refusal::Unscripted);
    }
    if !is_reached(space) {
        return Err(Refusal::Unreached);
    }
    Ok(())
}

// A buffer that has room for the script of every space.
pub fn blank() -> [u8; DUMP_BYTES]
    ensures { result ≡ replicate dump_most 0 }
{
    [0; DUMP_BYTES]
}

// ---- how many bytes

// Whether a buffer of this length has room for the script, which is measured only where the buffer is too short for some.
fn has_room(space: Space, room: usize) -> bool
    requires { Dumpable space }
    ensures { result ≡ leb (length (dump_bytes space)) room }
{
    DUMP_BYTES <= room || set_up_width(space.config) + records_width(space) <= room
}

// Each number of a sound configuration has one.
fn set_up_width(config: Config) -> usize
    requires { sound config ≡ true }
    ensures { result ≡ length (set_up_bytes config) }
{
    if config.has_choices() { 4 } else { 3 }
}

fn records_width(space: Space) -> usize
    requires { Dumpable space }
    ensures { result ≡ length (records_bytes (dump_calls space)) }
{
    let config = space.config;
    let mut n: usize = 0;
    for tuple in &space.tuples[..space.count] {
        n += record_width(call_of(config, *tuple));
    }
    n
}

// A record is measured by writing it.
fn record_width(call: Call) -> usize
    requires { call_fault call ≡ Ok tt }
    ensures { result ≡ length (call_bytes call) }
{
    let mut room = [0u8; RECORD_BYTES];
    record::write(call, &mut room).unwrap_or(0)
}

// ---- the bytes

fn put_set_up(buffer: &mut [u8], config: Config)
    requires config_value { sound config ≡ true }
    requires config_in_bounds { length (set_up_bytes config) ≤ length buffer.old }
    ensures { buffer.new ≡ sets buffer.old 0 (set_up_bytes config) }
{
    buffer[0] = config.n as u8;
    buffer[1] = config.t as u8;
    buffer[2] = config.policy as u8;
    if config.has_choices() {
        buffer[3] = config.k as u8;
    }
}

fn put_records(buffer: &mut [u8], at: usize, space: Space) -> usize
    requires dumpable { Dumpable space }
    requires space_in_bounds { at + length (records_bytes (dump_calls space)) ≤ length buffer.old }
    ensures value { result ≡ at + length (records_bytes (dump_calls space)) }
    ensures buffer_after { buffer.new ≡ sets buffer.old at (records_bytes (dump_calls space)) }
{
    let config = space.config;
    let mut place = at;
    for tuple in &space.tuples[..space.count] {
        place = put_record(buffer, place, call_of(config, *tuple));
    }
    place
}

fn put_record(buffer: &mut [u8], at: usize, call: Call) -> usize
    requires call_value { call_fault call ≡ Ok tt }
    requires call_in_bounds { at + length (call_bytes call) ≤ length buffer.old }
    ensures value { result ≡ at + length (call_bytes call) }
    ensures buffer_after { buffer.new ≡ sets buffer.old at (call_bytes call) }
{
    at + record::write(call, &mut buffer[at..]).unwrap_or(0)
}
