// Fields, tuples and calls: plain numbers, so that anything can be handed in and get its refusal.
ghost use Rattle.std.specs.Prelude.{◌≡◌};
ghost use Rattle.tuple.specs.Fields.{largest_of, blank_field, blank_tuple, blank_call, out_of, rdp_of, cas_of};

use crate::bounds::{FIELDS, LARGEST_CODE, LARGEST_COUNT, LARGEST_SET, LARGEST_WORD};

// The kinds of a field; a process set is 01's seats.
pub const WORD: u32 = 1;

pub const COUNT: u32 = 2;

pub const OFFSET: u32 = 3;

pub const PROCESS_SET: u32 = 4;

// The states of a field: 01's given, any and open.
pub const DEFINED: u32 = 0;

pub const WILDCARD: u32 = 1;

pub const FORMAL: u32 = 2;

// The words that have a meaning.
pub const PROPOSE: u64 = 1;

pub const DECISION: u64 = 2;

pub const LISTING: u64 = 3;

pub const ANNOUNCING: u64 = 4;

// The codes of the calls.
pub const OUT: u32 = 1;

pub const RDP: u32 = 2;

pub const INP: u32 = 3;

pub const CAS: u32 = 4;

// A field: its kind, its state and its value. An offset's value is its code.
#[repr(C)]
#[derive(Clone, Copy)]
pub struct Field {
    pub kind: u32,
    pub state: u32,
    pub value: u64,
}

// A tuple: how many fields it has, and six places for them.
#[repr(C)]
#[derive(Clone, Copy)]
pub struct Tuple {
    pub count: usize,
    pub fields: [Field; FIELDS],
}

// A call: the process (01's seat) that calls, the call's code, and its template and entry.
#[repr(C)]
#[derive(Clone, Copy, PartialEq, Eq)]
pub struct Call {
    pub process: u32,
    pub code: u32,
    pub template: Tuple,
    pub entry: Tuple,
}

impl Field {
    // The field of a place that is not used.
    pub fn blank() -> Self
        ensures { result ≡ blank_field }
    {
        Field {
            kind: 0,
            state: 0,
            value: 0,
        }
    }
}

impl Tuple {
    // The tuple of a place that is not used.
    pub fn blank() -> Self
        ensures { result ≡ blank_tuple }
    {
        Tuple {
            count: 0,
            fields: [Field::blank(); FIELDS],
        }
    }
}

impl Call {
    // The call that stands beside a refusal.
    pub fn blank() -> Self
        ensures { result ≡ blank_call }
    {
        Call {
            process: 0,
            code: 0,
            template: Tuple::blank(),
            entry: Tuple::blank(),
        }
    }

    // An out of an entry.
    pub fn out(process: u32, entry: Tuple) -> Self
        ensures { result ≡ out_of process entry }
    {
        Call {
            process,
            code: OUT,
            template: Tuple::blank(),
            entry,
        }
    }

    // An rdp by a template.
    pub fn rdp(process: u32, template: Tuple) -> Self
        ensures { result ≡ rdp_of process template }
    {
        Call {
            process,
            code: RDP,
            template,
            entry: Tuple::blank(),
        }
    }

    // A cas: its entry goes in if nothing matches its template.
    pub fn cas(process: u32, template: Tuple, entry: Tuple) -> Self
        ensures { result ≡ cas_of process template entry }
    {
        Call {
            process,
            code: CAS,
            template,
            entry,
        }
    }
}

// The largest value of a kind; 0 for what is no kind.
#[tactic(auto, unfolding(crate::specs::Fields::largest_of))]
pub fn largest(kind: u32) -> u64
    ensures { result ≡ largest_of kind }
{
    match kind {
        WORD => LARGEST_WORD,
        COUNT => LARGEST_COUNT,
        OFFSET => LARGEST_CODE,
        PROCESS_SET => LARGEST_SET,
        _ => 0,
    }
}
