// A script, run and printed: its head, then its records to its end.
ghost use Rattle.std.specs.Prelude.{◌≡◌, length, replicate};
ghost use Rattle.std.proofs.lemmas.List.Edits.{sets};
ghost use Rattle.script.specs.Printing.{text, text_bytes, printed_of, left_of};
ghost use Rattle.text.specs.Printers.{Puts};

use crate::TEXT_BYTES;
use crate::line::put_config;
use crate::records::put_records;
use crate::setup::head;
use text::Printer;
use tuple::Refusal;

// Runs a script, and puts its text at the start of buffer. Unless every text has room there, a first run only measures it.
pub fn print(script: &[u8], buffer: &mut [u8]) -> Result<usize, Refusal>
    ensures value { result ≡ printed_of script.now (length buffer.old) }
    ensures buffer_after { buffer.new ≡ left_of script.now buffer.old }
{
    if TEXT_BYTES <= buffer.len() {
        let length = put_script(buffer, script);
        return Ok(length);
    }
    let mut nothing = [0u8; 1];
    let n = put_script(&mut nothing, script);
    if buffer.len() < n {
        return Err(Refusal::NoRoom);
    }
    put_script(buffer, script);
    Ok(n)
}

// A buffer that has room for the text of every script.
pub fn blank() -> [u8; TEXT_BYTES]
    ensures { result ≡ replicate text_bytes 0 }
{
    [0; TEXT_BYTES]
}

// A script's text, from the start of the buffer.
fn put_script(out: &mut [u8], script: &[u8]) -> usize
    ensures value { result ≡ length (text script.now) }
    ensures out_after { out.new ≡ sets out.old 0 (text script.now) }
{
    let mut printer = Printer::new(out);
    put_text(&mut printer, script);
    printer.place()
}

// A script's text: its first line and those of its records, or the single line of its refusal.
fn put_text(printer: &mut Printer, script: &[u8])
    ensures { Puts printer.old printer.new (text script.now) }
{
    match head(script) {
        Ok((config, start)) => {
            put_config(printer, config);
            put_records(printer, script, start, config);
        }
        Err(refusal) => printer.put_refused(refusal),
    }
}
