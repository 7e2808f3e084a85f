// The library for C and Rust: a whole script, the space, the process and the record one by one, and a space back as a script. Structs go by
// value, and a number stands for each case of an enum.
#![tactic(auto)]

ghost use Rattle.std.specs.Prelude.{◌≡◌, length};
ghost use Rattle.board_c.specs.Flat.{scripted, opened, applied as applied·, started as started·, resumed as resumed·, read_at, written, dumped, strayed};
ghost use Rattle.dump.specs.Dumps.{left_of as dump_left};
ghost use Rattle.record.specs.Writing.{left_of as record_left};
ghost use Rattle.script.specs.Printing.{left_of as text_left};

mod number;
mod reply;
mod state;

use crate::number::{length_number, stray_number};
use crate::state::{offset_of, process_of};
use process::Process;
use record::Cursor;
pub use reply::{FlatApplied, FlatOpened, FlatRead, FlatReply};
use space::{Config, Space};
pub use state::{FlatProcess, FlatStep};
use tuple::{Call, Refusal, Reply};

// Runs a script and puts its text at the start of buffer: the text's length, or 2^32 and the refusal's number.
#[unsafe(no_mangle)]
pub extern "C" fn board_script(bytes: &[u8], buffer: &mut [u8]) -> u64
    ensures value { result ≡ scripted bytes.now (length buffer.old) }
    ensures buffer_after { buffer.new ≡ text_left bytes.now buffer.old }
{
    length_number(script::print(bytes, buffer))
}

// A fresh space, or refusal 1 beside the blank one. Either is made where it stands: a space that is taken out of a `Result` is copied once more.
#[unsafe(no_mangle)]
#[tactic(auto, unfolding(space::specs::Spaces::fresh_of))]
pub extern "C" fn board_fresh(config: Config) -> FlatOpened
    ensures { result ≡ opened config }
{
    match space::fresh(config) {
        Ok(_) => FlatOpened {
            refusal: 0,
            space: Space::empty(config),
        },
        Err(refusal) => FlatOpened {
            refusal: u64::from(refusal.number()),
            space: Space::empty(Config::blank()),
        },
    }
}

// A call on a space: the reply, and the space afterwards.
#[unsafe(no_mangle)]
pub extern "C" fn board_apply(space: Space, call: Call) -> FlatApplied
    ensures { result ≡ applied· space call }
{
    FlatApplied::from(calls::apply(space, call))
}

// Starts a process in a round with its proposal: bottom if the flag is not 0.
#[unsafe(no_mangle)]
pub extern "C" fn board_start(
    config: Config,
    process: u32,
    round: u64,
    bottom: u32,
    hundredths: i32,
) -> FlatStep
    ensures { result ≡ started· config process round bottom hundredths }
{
    let step = process::start(config, process, round, offset_of(bottom, hundredths));
    FlatStep::new(FlatProcess::from(Process::blank()), step)
}

// Hands a process a reply. A phase that is none, or a value beside a phase that has none, is refused 1.
#[unsafe(no_mangle)]
pub extern "C" fn board_resume(process: FlatProcess, reply: FlatReply) -> FlatStep
    ensures { result ≡ resumed· process reply }
{
    match process_of(process) {
        Some(known) => FlatStep::new(process, process::resume(known, Reply::from(reply))),
        None => FlatStep::refused(process, Refusal::Unsound),
    }
}

// The call that stands at a place of bytes, and the place behind it.
#[unsafe(no_mangle)]
pub extern "C" fn board_read(bytes: &[u8], at: usize) -> FlatRead
    ensures { result ≡ read_at bytes.now at }
{
    FlatRead::from(Cursor { at }.call(bytes))
}

// Puts the record of a call at the start of buffer: the record's length, or 2^32 and the refusal's number.
#[unsafe(no_mangle)]
pub extern "C" fn board_write(call: Call, buffer: &mut [u8]) -> u64
    ensures value { result ≡ written call (length buffer.old) }
    ensures buffer_after { buffer.new ≡ record_left call buffer.old }
{
    length_number(record::write(call, buffer))
}

// Puts a script whose run ends in the space at the start of buffer: the script's length, at most 17,667, or 2^32 and the refusal's number: 1 for a
// space that is not well formed, then 15 for one of policy 5, then 14 for one that no script ends in, then 10 for a buffer that is shorter.
#[unsafe(no_mangle)]
pub extern "C" fn board_dump(space: Space, buffer: &mut [u8]) -> u64
    ensures value { result ≡ dumped space (length buffer.old) }
    ensures buffer_after { buffer.new ≡ dump_left space buffer.old }
{
    length_number(dump::write(space, buffer))
}

// The first record of a script in which one of a set of processes strays from the procedure: its number, 0 if all of them follow, or 2^32 and the refusal's
// number: 9, then 2 or 3 for a set-up that can't be read, then 1 for one that is not sound and for a policy other than 2 and 3, then 6 for a process above n.
#[unsafe(no_mangle)]
pub extern "C" fn board_strays(bytes: &[u8], set: u64) -> u64
    ensures { result ≡ strayed bytes.now set }
{
    stray_number(monitor::first_stray(bytes, set))
}
