// The scripts of data/: each a file of hexadecimal digits, named in the file list, one name to a line.
ghost use Rattle.std.specs.Prelude.{◌≤◌, length, IfOk};
ghost use Rattle.std.specs.Io.{ReadsAtMost};

use crate::hex::decode;
use crate::show::text;
use std::io::{ErrorKind, Read};
use std::rt::Files;
use std::{fs, io};

// The most bytes that are read of the list and of a file, and the most of a script.
const LIST: usize = 4096;

const SOURCE: usize = 16_384;

const SCRIPT: usize = 8192;

// The name and the text of each script of the list.
pub(crate) fn listed(rt: &(impl Files + Print)) -> io::Result<()> {
    let mut list = [0; LIST];
    for line in load(rt, b"list", &mut list)?.split_inclusive(|sign| *sign == b'\n') {
        let name = line.strip_suffix(b"\n").unwrap_or(line);
        rt.write_all(name)?;
        rt.write_all(b"\n")?;
        let mut source = [0; SOURCE];
        let mut script = [0; SCRIPT];
        text(rt, decode(load(rt, name, &mut source)?, &mut script))?;
    }
    Ok(())
}

// The text of what a record and the set-up before it are cut to, at each byte.
pub(crate) fn cuts(rt: &(impl Files + Print)) -> io::Result<()> {
    let mut source = [0; SOURCE];
    let mut script = [0; 64];
    let script = decode(load(rt, b"record", &mut source)?, &mut script);
    for k in 0..script.len() {
        println!(rt; "record cut at {k}")?;
        text(rt, &script[..k])?;
    }
    Ok(())
}

// The bytes of a file, put at the start of buffer while there is room: the part of buffer that they fill.
fn load<'a>(rt: &impl Files, name: &[u8], buffer: &'a mut [u8]) -> io::Result<&'a [u8]>
    ensures { IfOk result (λ bytes. length bytes.now ≤ length buffer.old) }
{
    let Ok(path) = str::from_utf8(name) else {
        return Err(io::Error::from(ErrorKind::InvalidInput));
    };
    let n = read_full(&mut fs::open(rt, path)?, buffer)?;
    Ok(&buffer[..n])
}

// Reads until buffer is full or the file ends, and answers how many bytes were put at its start.
fn read_full(file: &mut impl Read, buffer: &mut [u8]) -> io::Result<usize>
    ensures { ReadsAtMost result buffer.new }
{
    let mut done = 0;
    while done < buffer.len() {
        let n = file.read(&mut buffer[done..])?;
        if n == 0 {
            break;
        }
        done += n;
    }
    Ok(done)
}
