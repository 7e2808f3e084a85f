// A field as text: the letter of its kind, and its value.
ghost use Rattle.text.specs.Printers.{Puts};
ghost use Rattle.text.specs.Texts.{offset_text, value_text, letter_text, field_text, tuple_text};
ghost use Rattle.tuple.specs.Offsets.{offset_of};

use crate::bytes::Printer;
use tuple::{BOTTOM, COUNT, FIELDS, Field, OFFSET, Tuple, WORD};

impl Printer<'_> {
    // The fields of a tuple, each behind a space.
    pub fn put_tuple(&mut self, tuple: Tuple)
        ensures { Puts self.old self.new (tuple_text tuple) }
    {
        let mut fields = &tuple.fields[..tuple.count.min(FIELDS)];
        while let Some((field, more)) = fields.split_first() {
            self.put_field(*field);
            fields = more;
        }
    }

    // A field, behind a space.
    pub fn put_field(&mut self, field: Field)
        ensures { Puts self.old self.new (field_text field) }
    {
        self.put_letter(field.kind);
        self.put_value(field.kind, field.value);
    }

    // The letter of a kind, behind a space.
    #[tactic(auto, unfolding(crate::specs::Texts::letter_text))]
    fn put_letter(&mut self, kind: u32)
        ensures { Puts self.old self.new (letter_text kind) }
    {
        match kind {
            WORD => self.put(b" w"),
            COUNT => self.put(b" c"),
            OFFSET => self.put(b" o"),
            _ => self.put(b" s"),
        }
    }

    // The value of a field: an offset by its code, every other as it is.
    #[tactic(auto, unfolding(crate::specs::Texts::value_text))]
    fn put_value(&mut self, kind: u32, value: u64)
        ensures { Puts self.old self.new (value_text kind value) }
    {
        if kind == OFFSET {
            self.put_offset(value);
        } else {
            self.put_number(value);
        }
    }

    // The offset that a code stands for: a code above 0 is that of a negative one if it is even.
    pub fn put_offset(&mut self, code: u64)
        ensures { Puts self.old self.new (offset_text (offset_of code)) }
    {
        if code == BOTTOM {
            return self.put(b"_");
        }
        if code % 2 == 1 {
            return self.put_number(code / 2);
        }
        self.put(b"-");
        self.put_number(code / 2);
    }
}
