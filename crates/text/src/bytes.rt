// A buffer and the place in it behind what was put.
ghost use Rattle.std.specs.Prelude.{◌≡◌, ◌≤◌, length};
ghost use Rattle.text.specs.Places.{largest_place};

// Fewer bytes are stored one by one: a copy of their own takes longer.
const SHORT: usize = 8;

// What would stand behind the buffer's end is counted and not stored. The count stops at the largest place.
#[derive(Drop)]
pub struct Printer<'a> {
    out: &'a mut [u8],
    at: usize,
    ghost fits: { length out.now ≤ largest_place },
    ghost counts: { at ≤ largest_place },
}

impl<'a> Printer<'a> {
    ghost use Rattle.std.specs.Prelude.{[], ◌∷◌};
    ghost use Rattle.text.specs.Printers.{Starts, Stands, Puts};

    // At the start of a buffer.
    pub fn new(out: &'a mut [u8]) -> Printer<'a>
        ensures { Starts result out.entry }
    {
        Printer { out, at: 0 }
    }

    // At a place of a buffer, or behind its end.
    pub fn at_place(out: &'a mut [u8], place: usize) -> Printer<'a>
        ensures { Stands result out.entry place }
    {
        Printer { out, at: place }
    }

    // The place behind what was put.
    pub fn place(&self) -> usize
        ensures { result ≡ self.now.at }
    {
        self.at
    }

    // Puts the bytes that the buffer has room for.
    pub fn put(&mut self, bytes: &[u8])
        ensures { Puts self.old self.new bytes.now }
    {
        if bytes.len() < SHORT {
            self.put_short(bytes);
        } else {
            self.put_long(bytes);
        }
    }

    fn put_short(&mut self, bytes: &[u8])
        ensures { Puts self.old self.new bytes.now }
    {
        for byte in bytes {
            self.put_byte(*byte);
        }
    }

    fn put_byte(&mut self, byte: u8)
        ensures { Puts self.old self.new (byte ∷ []) }
    {
        if self.at < self.out.len() {
            self.out[self.at] = byte;
        }
        self.at = self.at.saturating_add(1);
    }

    fn put_long(&mut self, bytes: &[u8])
        ensures { Puts self.old self.new bytes.now }
    {
        let at = self.at;
        if at < self.out.len() {
            let room = bytes.len().min(self.out.len() - at);
            self.out[at..at + room].copy_from_slice(&bytes[..room]);
        }
        self.at = at.saturating_add(bytes.len());
    }
}
