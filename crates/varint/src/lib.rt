// Numbers in groups of seven bits, the lowest group first: a reader that takes the shortest form alone, and a writer of that form.
#![tactic(auto)]

ghost use Rattle.std.specs.Prelude.{◌≡◌, cond, ◌&&◌, ◌+◌, ◌≤◌, length, ltb, eqb};
ghost use Rattle.varint.specs.Reading.{further, last_group, number_at};
ghost use Rattle.varint.specs.Writing.{bytes_of, width_of, stored, written_at, left_at};

// The most groups that a number has.
pub const GROUPS: usize = 10;

// The largest last group of a number that has that many.
pub const LAST_GROUP: u64 = 0x01;

// Why no number can be read.
#[derive(Clone, Copy, Debug, PartialEq, Eq)]
pub enum ReadError {
    // The bytes end inside the number.
    Cut,
    // The number is too long, or not in its shortest form.
    Overlong,
}

// Why a number can't be written.
#[derive(Clone, Copy, Debug, PartialEq, Eq)]
pub enum WriteError {
    // The number is above the largest, as no number of 64 bits is.
    Beyond,
    // The buffer ends before the number does.
    NoRoom,
}

// The number that stands at a place of s, and the place behind its last byte. Most have one byte.
pub fn read(s: &[u8], at: usize) -> Result<(u64, usize), ReadError>
    ensures { result ≡ number_at s.now at }
{
    if s.len() <= at {
        return Err(ReadError::Cut);
    }
    let first = u64::from(s[at]);
    if first < 128 {
        return Ok((first, at + 1));
    }
    read_groups(s, at)
}

// The same of any number. Group after group is read, the lowest first: `value` is what the groups before `place` make up, `worth` what the lowest bit
// of the group at `place` is worth, and `more` how many groups may follow it.
fn read_groups(s: &[u8], at: usize) -> Result<(u64, usize), ReadError>
    ensures { result ≡ number_at s.now at }
{
    let mut value: u64 = 0;
    let mut worth: u64 = 1;
    let mut more = most_further(s.len());
    for place in at..s.len() {
        let byte = u64::from(s[place]);
        if byte < 128 {
            if is_overlong(byte, worth, more) {
                return Err(ReadError::Overlong);
            }
            return Ok((value + worth * byte, place + 1));
        }
        if more == 0 {
            return Err(ReadError::Overlong);
        }
        value += worth * (byte % 128);
        worth *= 128;
        more -= 1;
    }
    Err(ReadError::Cut)
}

// How many groups may follow the first: no more than there are bytes, so that the compiler does not unroll a loop of ten groups at each place that reads.
fn most_further(length: usize) -> usize
    ensures { result ≡ cond (ltb length further) length further }
{
    length.min(GROUPS - 1)
}

// Whether a number whose last group is this byte is too long, or not in its shortest form: a last byte 00 after another byte, or a group above the
// largest where no more may follow. `worth` is 1 for a first group alone, and `more` 0 where none may follow.
fn is_overlong(byte: u64, worth: u64, more: usize) -> bool
    ensures { result ≡ cond (eqb byte 0) (ltb 1 worth) (eqb more 0 && ltb last_group byte) }
{
    if byte == 0 {
        1 < worth
    } else {
        more == 0 && LAST_GROUP < byte
    }
}

// How many bytes the shortest form of a number has.
pub fn width(value: u64) -> usize
    ensures { result ≡ width_of value }
{
    let mut rest = value;
    let mut n: usize = 1;
    // It ends by the value that is left: no range says beforehand how many groups there are.
    while rest >= 128 {
        rest /= 128;
        n += 1;
    }
    n
}

// Puts the shortest form of a number at a place of buffer, and answers the place behind its last byte.
pub fn write(buffer: &mut [u8], at: usize, value: u64) -> Result<usize, WriteError>
    ensures value { result ≡ written_at (length buffer.old) at value }
    ensures buffer_after { buffer.new ≡ left_at buffer.old at value }
{
    let n = width(value);
    if buffer.len() < n || buffer.len() - n < at {
        return Err(WriteError::NoRoom);
    }
    put(buffer, at, value);
    Ok(at + n)
}

// Puts the shortest form of a number at a place of buffer that has room for it.
fn put(buffer: &mut [u8], at: usize, value: u64)
    requires { at + width_of value ≤ length buffer.old }
    ensures { buffer.new ≡ stored buffer.old at (bytes_of value) }
{
    let mut rest = value;
    let mut place = at;
    // It ends by the value that is left, as the loop of `width` does.
    while 128 <= rest {
        buffer[place] = (rest % 128 + 128) as u8;
        rest /= 128;
        place += 1;
    }
    buffer[place] = rest as u8;
}
