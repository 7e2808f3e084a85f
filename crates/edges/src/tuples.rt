// The tuples of the cases. Proposals and decisions are of round 0, with the offset by its code.
use tuple::{
    DECISION_ENTRY, DECISION_TEMPLATE, DEFINED, FIELDS, Field, PROPOSAL, Tuple, WEAK_ENTRY,
    WEAK_TEMPLATE, WILDCARD, WORD, make,
};

fn field(kind: u32, state: u32, value: u64) -> Field {
    Field { kind, state, value }
}

// (word 1, count 0, count process, offset)
pub(crate) fn proposal(process: u64, code: u64) -> Tuple {
    make(PROPOSAL, 0, process, code, 0)
}

// The same of round 8, which is none.
pub(crate) fn late_proposal(process: u64, code: u64) -> Tuple {
    make(PROPOSAL, 8, process, code, 0)
}

// (word 2, count 0, offset, processes)
pub(crate) fn decision(code: u64, set: u64) -> Tuple {
    make(DECISION_ENTRY, 0, code, set, 0)
}

// (word 2, count 0, open offset, any processes)
pub(crate) fn asking() -> Tuple {
    make(DECISION_TEMPLATE, 0, 0, 0, 0)
}

// (word 2, count 0, offset)
pub(crate) fn weak(code: u64) -> Tuple {
    make(WEAK_ENTRY, 0, code, 0, 0)
}

// (word 2, count 0, open offset)
pub(crate) fn asking_weak() -> Tuple {
    make(WEAK_TEMPLATE, 0, 0, 0, 0)
}

// (word 7, and one field more)
pub(crate) fn pair(kind: u32, value: u64) -> Tuple {
    let blank = Field::blank();
    Tuple {
        count: 2,
        fields: [
            field(WORD, DEFINED, 7),
            field(kind, DEFINED, value),
            blank,
            blank,
            blank,
            blank,
        ],
    }
}

// (any word)
pub(crate) fn any_word() -> Tuple {
    let blank = Field::blank();
    Tuple {
        count: 1,
        fields: [field(WORD, WILDCARD, 0), blank, blank, blank, blank, blank],
    }
}

// A tuple of `count` word fields.
pub(crate) fn words(count: usize) -> Tuple {
    Tuple {
        count,
        fields: [field(WORD, DEFINED, 7); FIELDS],
    }
}
