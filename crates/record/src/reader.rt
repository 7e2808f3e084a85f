// Reading a record: a position steps past a number, a field, a tuple or a call, and hands itself back with the value, or the first fault from the left is
// answered. Beside a whole call stands where reading goes on, or the refusal.
ghost use Rattle.std.specs.Prelude.{◌≡◌};
ghost use Rattle.record.specs.Reading.{read_number, value_at, field_at, tuple_at, part_at, parts_at, process_step, call_at, beside};

use crate::head::head_of;
use tuple::{CAS, Call, DEFINED, FIELDS, Field, LARGEST_PROCESS, OUT, Refusal, Tuple};
use varint::ReadError;

// A reading position: how many bytes stand before it.
#[derive(Clone, Copy)]
pub struct Cursor {
    pub at: usize,
}

// A value that was read and the position behind it, or the refusal.
pub type Reading<T> = Result<(T, Cursor), Refusal>;

// What reading a record answers: the position behind it, or the refusal, and beside it the call, which is blank beside a refusal.
#[derive(Clone, Copy)]
pub struct ReadCall {
    pub next: Result<Cursor, Refusal>,
    pub call: Call,
}

// The call that s begins with. The position behind it is how many bytes it took.
pub fn read(s: &[u8]) -> ReadCall
    ensures { result ≡ beside (call_at s.now 0) }
{
    Cursor { at: 0 }.call(s)
}

impl Cursor {
    // Steps past a number.
    #[tactic(auto, unfolding(crate::specs::Reading::read_number))]
    pub fn number(self, s: &[u8]) -> Reading<u64>
        ensures { result ≡ read_number s.now self.at }
    {
        match varint::read(s, self.at) {
            Ok((value, next)) => Ok((value, Cursor { at: next })),
            Err(ReadError::Cut) => Err(Refusal::Cut),
            Err(ReadError::Overlong) => Err(Refusal::Beyond),
        }
    }

    // Steps past a field of a template, or of an entry.
    #[tactic(auto, unfolding(crate::specs::Reading::field_at))]
    pub fn field(self, s: &[u8], entry: bool) -> Reading<Field>
        ensures { result ≡ field_at entry s.now self.at }
    {
        let (head, cursor) = self.number(s)?;
        let Some((kind, state)) = head_of(head) else {
            return Err(Refusal::Unknown);
        };
        if state == DEFINED {
            return cursor.defined(s, kind);
        }
        if entry {
            return Err(Refusal::Misshapen);
        }
        let value = 0;
        Ok((Field { kind, state, value }, cursor))
    }

    // Steps past the value of a defined field.
    #[tactic(auto, unfolding(crate::specs::Reading::value_at))]
    fn defined(self, s: &[u8], kind: u32) -> Reading<Field>
        ensures { result ≡ value_at kind s.now self.at }
    {
        let (value, cursor) = self.number(s)?;
        if tuple::largest(kind) < value {
            return Err(Refusal::Beyond);
        }
        let state = DEFINED;
        Ok((Field { kind, state, value }, cursor))
    }

    // Steps past a template, or an entry. The tuple is one local and not its parts: it is copied on as a whole, which is faster if it was written so.
    #[tactic(auto, unfolding(crate::specs::Reading::tuple_at))]
    pub fn tuple(self, s: &[u8], entry: bool) -> Reading<Tuple>
        ensures { result ≡ tuple_at entry s.now self.at }
    {
        let (number, start) = self.number(s)?;
        if number < 1 || (FIELDS as u64) < number {
            return Err(Refusal::Misshapen);
        }
        let count = number as usize;
        let mut tuple = Tuple {
            count,
            fields: [Field::blank(); FIELDS],
        };
        let mut cursor = start;
        for i in 0..count {
            let (field, behind) = cursor.field(s, entry)?;
            tuple.fields[i] = field;
            cursor = behind;
        }
        Ok((tuple, cursor))
    }

    // Steps past a template or an entry, if the call has it.
    #[tactic(auto, unfolding(crate::specs::Reading::part_at))]
    fn part(self, s: &[u8], used: bool, entry: bool) -> Reading<Tuple>
        ensures { result ≡ part_at used entry s.now self.at }
    {
        if used {
            self.tuple(s, entry)
        } else {
            Ok((Tuple::blank(), self))
        }
    }

    // Steps past a record.
    pub fn call(self, s: &[u8]) -> ReadCall
        ensures { result ≡ beside (call_at s.now self.at) }
    {
        match self.record(s) {
            Ok((call, next)) => ReadCall {
                next: Ok(next),
                call,
            },
            Err(refusal) => ReadCall {
                next: Err(refusal),
                call: Call::blank(),
            },
        }
    }

    // Steps past what a record holds.
    #[tactic(auto, unfolding(crate::specs::Reading::call_at))]
    fn record(self, s: &[u8]) -> Reading<Call>
        ensures { result ≡ call_at s.now self.at }
    {
        let (process, cursor) = self.number(s)?;
        cursor.body(s, process)
    }

    // Steps past a record's code and what follows it, unless its process is above the largest.
    #[tactic(auto, unfolding(crate::specs::Reading::body_at))]
    fn body(self, s: &[u8], process: u64) -> Reading<Call>
        ensures { result ≡ process_step s.now process self.at }
    {
        if LARGEST_PROCESS < process {
            return Err(Refusal::Beyond);
        }
        let (code, cursor) = self.number(s)?;
        if code < u64::from(OUT) || u64::from(CAS) < code {
            return Err(Refusal::Unknown);
        }
        cursor.parts(s, process as u32, code as u32)
    }

    // Steps past the template and the entry that a call of this code has.
    #[tactic(auto, unfolding(crate::specs::Reading::parts_at))]
    fn parts(self, s: &[u8], process: u32, code: u32) -> Reading<Call>
        ensures { result ≡ parts_at process code s.now self.at }
    {
        let (template, behind) = self.part(s, tuple::uses_template(code), false)?;
        let (entry, end) = behind.part(s, tuple::uses_entry(code), true)?;
        let call = Call {
            process,
            code,
            template,
            entry,
        };
        Ok((call, end))
    }
}
