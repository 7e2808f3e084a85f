// Texts of scripts on standard output.
use std::io;

// The text of a script.
pub(crate) fn text(rt: &impl Print, script: &[u8]) -> io::Result<()> {
    let mut buffer = script::blank();
    rt.write_all(text_of(script, &mut buffer))
}

// How many bytes the text of a script has, and the last of them.
pub(crate) fn end(rt: &impl Print, script: &[u8], last: usize) -> io::Result<()> {
    let mut buffer = script::blank();
    let text = text_of(script, &mut buffer);
    println!(rt; "bytes of text: {}", text.len())?;
    rt.write_all(&text[text.len().saturating_sub(last)..])
}

// The text of a script, which is put at the start of a buffer.
fn text_of<'a>(script: &[u8], buffer: &'a mut [u8]) -> &'a [u8] {
    match script::print(script, buffer) {
        Ok(length) => &buffer[..length],
        Err(_) => &[],
    }
}
