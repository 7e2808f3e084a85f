// The records of a script, run on the one space that stands here. It is three locals, the tuples, their table and their count; the search has the tuples lent as a
// slice, and the append and the removal stand in the loop that owns them: a space that is handed on is copied (docs/DECISIONS.md, "What copies a space").
ghost use Rattle.std.specs.Prelude.{◌≡◌, true};
ghost use Rattle.script.specs.Printing.{lines_on};
ghost use Rattle.script.specs.Scripts.{records_at};
ghost use Rattle.space.specs.Configs.{sound};
ghost use Rattle.space.specs.Spaces.{fresh_space};
ghost use Rattle.text.specs.Printers.{Puts};
ghost use Rattle.varint.specs.Reading.{Bytes};

use crate::line::{put_count, put_unread};
use crate::owned::{effect_by, found_among, sought};
use calls::{Change, lent_refusal, list_refusal};
use policy::asks_tuples;
use record::Cursor;
use space::{Config, PLACES, Space, enter};
use text::Printer;
use tuple::{TUPLES, Tuple};

// The lines of the records from a position on, each call on the space that the one before left, the first on a fresh one; and the last line.
pub(crate) fn put_records(printer: &mut Printer, script: &[u8], start: Cursor, config: Config)
    requires bytes { Bytes script.now }
    requires config_value { sound config ≡ true }
    ensures { Puts printer.old printer.new (lines_on 1 (fresh_space config) (records_at script.now start.at)) }
{
    let mut tuples = [Tuple::blank(); TUPLES];
    let mut table = [0u64; PLACES];
    let mut count: usize = 0;
    let mut cursor = start;
    let mut number: u64 = 1;
    // A while: the place of the next record is what reading this one answers.
    while cursor.at < script.len() {
        let read = cursor.call(script);
        let Ok(behind) = read.next else {
            put_unread(printer, number, read.next);
            return put_count(printer, count);
        };
        let call = read.call;
        let code = call.code;
        let template = call.template;
        let entry = call.entry;
        let first = if asks_tuples(config, code) {
            list_refusal(
                Space {
                    config,
                    count,
                    tuples,
                    table,
                },
                call,
            )
        } else {
            lent_refusal(config, &table, call)
        };
        let held = sought(first, code, count);
        let found = found_among(&tuples, held, template);
        let effect = effect_by(first, code, count, found);
        let reply = effect.reply;
        let change = effect.change;
        printer.put_line(number, reply);
        cursor = behind;
        number += 1;
        match change {
            Change::Keep => continue,
            Change::Append => {
                if TUPLES <= count {
                    continue;
                }
                tuples[count] = entry;
                enter(config, &mut table, entry);
                count += 1;
                continue;
            }
            Change::Remove(gone) => {
                if count <= gone {
                    continue;
                }
                tuples.copy_within(gone + 1..count, gone);
                tuples[count - 1] = Tuple::blank();
                count -= 1;
            }
        }
    }
    put_count(printer, count);
}
