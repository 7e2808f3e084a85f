// The records of a script, each call made on the space that the one before left, and those of a set's members watched.
ghost use Rattle.std.specs.Prelude.{◌≡◌, true, ltb, Ok};
ghost use Rattle.monitor.specs.Private.{judged_turn};
ghost use Rattle.monitor.specs.Strays.{stray_of};
ghost use Rattle.script.specs.Scripts.{script_head};
ghost use Rattle.space.specs.Bounds.{processes};
ghost use Rattle.space.specs.Configs.{has_proposals};
ghost use Rattle.space.specs.Members.{within};
ghost use Rattle.varint.specs.Reading.{Bytes};

use crate::member::place_of;
use crate::tracked::Tracked;
use calls::carry_out_unchecked;
use record::Cursor;
use script::{Stepped, step};
use space::{Config, PROCESSES, Space};
use tuple::{Call, Reply};

// A place for each process, and one for those that are not watched.
const PLACES: usize = PROCESSES + 1;

// The first record from a position on in which a member makes a call that the procedure would not make there. Nothing behind it is read.
pub(crate) fn watch_records(bytes: &[u8], start: Cursor, config: Config, set: u64) -> Option<u64>
    requires bytes { Bytes bytes.now }
    requires head_value { script_head bytes.now ≡ Ok (config, start) }
    requires config_value { has_proposals config ≡ true }
    requires set_value { within config.n set ≡ true }
    ensures { Ok result ≡ stray_of bytes.now set }
{
    let mut space = Space::empty(config);
    let mut watches = [Tracked::new(); PLACES];
    let mut cursor = start;
    let mut number: u64 = 1;
    // A while: the place of the next record is what reading this one answers.
    while cursor.at < bytes.len() {
        let Ok(Stepped { next, call, effect }) = step(bytes, cursor, space) else {
            return None;
        };
        let place = place_of(config.n, set, call.process);
        let Some(tracked) = watch(config, call, effect.reply, watches[place], place) else {
            return Some(number);
        };
        watches[place] = tracked;
        space = carry_out_unchecked(space, call.entry, effect.change);
        cursor = next;
        number += 1;
    }
    None
}

// What is kept behind a call with the reply to it, of the process that is kept at a place, or nothing if the call was not due; of one that is kept nowhere every
// call passes.
fn watch(config: Config, call: Call, reply: Reply, kept: Tracked, place: usize) -> Option<Tracked>
    ensures { result ≡ judged_turn config call reply kept (ltb place processes) }
{
    if PROCESSES <= place {
        return Some(kept);
    }
    if kept.is_due(config, call.process, call) {
        Some(kept.took(config, call.process, call, reply))
    } else {
        None
    }
}
