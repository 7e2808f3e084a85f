// The lines of a script's text that speak of more than a reply, each with its line feed.
ghost use Rattle.script.specs.Printing.{unread_of};
ghost use Rattle.script.specs.Texts.{choices_text, config_line, count_line};
ghost use Rattle.text.specs.Printers.{Puts};

use record::Cursor;
use space::Config;
use text::Printer;
use tuple::Refusal;

// Board, n, t and the policy, and under policy 3 k.
pub(crate) fn put_config(printer: &mut Printer, config: Config)
    ensures { Puts printer.old printer.new (config_line config) }
{
    printer.put(b"board");
    printer.put_spaced(config.n);
    printer.put_spaced(config.t);
    printer.put_spaced(config.policy);
    put_choices(printer, config);
    printer.put(b"\n");
}

// Under policy 3 how many choices there are.
fn put_choices(printer: &mut Printer, config: Config)
    ensures { Puts printer.old printer.new (choices_text config) }
{
    if config.has_choices() {
        printer.put_spaced(config.k);
    }
}

// The number of a record that can't be read, and the refusal in place of its end.
pub(crate) fn put_unread(printer: &mut Printer, number: u64, next: Result<Cursor, Refusal>)
    ensures { Puts printer.old printer.new (unread_of number next) }
{
    if let Err(refusal) = next {
        printer.put_number(number);
        printer.put(b" ");
        printer.put_refused(refusal);
    }
}

// Tuples and how many are held.
pub(crate) fn put_count(printer: &mut Printer, count: usize)
    ensures { Puts printer.old printer.new (count_line count) }
{
    printer.put(b"tuples");
    printer.put_spaced(count as u64);
    printer.put(b"\n");
}
