// Numbers in decimal digits.
ghost use Rattle.text.specs.Digits.{decimal};
ghost use Rattle.text.specs.Printers.{Puts};
ghost use Rattle.text.specs.Texts.{spaced};

use crate::bytes::Printer;

impl Printer<'_> {
    // The decimal digits of n.
    pub fn put_number(&mut self, n: u64)
        ensures { Puts self.old self.new (decimal n) }
    {
        let mut digits = [0u8; 20];
        let k = io::decimal(n, &mut digits);
        self.put(&digits[..k]);
    }

    // A space, and the decimal digits of n.
    pub fn put_spaced(&mut self, n: u64)
        ensures { Puts self.old self.new (spaced n) }
    {
        self.put(b" ");
        self.put_number(n);
    }
}
