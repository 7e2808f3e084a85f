// The shapes of the tuples that have a meaning, and of the templates for them.
use crate::field::{
    ANNOUNCING, COUNT, DECISION, DEFINED, FORMAL, LISTING, OFFSET, PROCESS_SET, PROPOSE, WILDCARD,
};
use crate::shape::{Place, Shape, UNDEFINED};

const NONE: Place = Place { kind: 0, state: 0 };

const GIVEN_COUNT: Place = Place {
    kind: COUNT,
    state: DEFINED,
};

const ANY_COUNT: Place = Place {
    kind: COUNT,
    state: WILDCARD,
};

const UNDEFINED_COUNT: Place = Place {
    kind: COUNT,
    state: UNDEFINED,
};

const GIVEN_OFFSET: Place = Place {
    kind: OFFSET,
    state: DEFINED,
};

const OPEN_OFFSET: Place = Place {
    kind: OFFSET,
    state: FORMAL,
};

const UNDEFINED_OFFSET: Place = Place {
    kind: OFFSET,
    state: UNDEFINED,
};

const GIVEN_SET: Place = Place {
    kind: PROCESS_SET,
    state: DEFINED,
};

const ANY_SET: Place = Place {
    kind: PROCESS_SET,
    state: WILDCARD,
};

// (word 1, count, count, offset)
pub const PROPOSAL: Shape = Shape {
    count: 4,
    word: PROPOSE,
    third: GIVEN_COUNT,
    fourth: GIVEN_OFFSET,
    fifth: NONE,
};

// (word 1, count, count, open offset)
pub const PROPOSAL_TEMPLATE: Shape = Shape {
    count: 4,
    word: PROPOSE,
    third: GIVEN_COUNT,
    fourth: OPEN_OFFSET,
    fifth: NONE,
};

// (word 2, count, offset)
pub const WEAK_ENTRY: Shape = Shape {
    count: 3,
    word: DECISION,
    third: GIVEN_OFFSET,
    fourth: NONE,
    fifth: NONE,
};

// (word 2, count, open offset)
pub const WEAK_TEMPLATE: Shape = Shape {
    count: 3,
    word: DECISION,
    third: OPEN_OFFSET,
    fourth: NONE,
    fifth: NONE,
};

// (word 2, count, offset, processes)
pub const DECISION_ENTRY: Shape = Shape {
    count: 4,
    word: DECISION,
    third: GIVEN_OFFSET,
    fourth: GIVEN_SET,
    fifth: NONE,
};

// (word 2, count, open offset, any processes)
pub const DECISION_TEMPLATE: Shape = Shape {
    count: 4,
    word: DECISION,
    third: OPEN_OFFSET,
    fourth: ANY_SET,
    fifth: NONE,
};

// (word 3, count, count, count, offset)
pub const LIST_TUPLE: Shape = Shape {
    count: 5,
    word: LISTING,
    third: GIVEN_COUNT,
    fourth: GIVEN_COUNT,
    fifth: GIVEN_OFFSET,
};

// (word 3, count, any count, any count, open offset)
pub const LIST_TEMPLATE: Shape = Shape {
    count: 5,
    word: LISTING,
    third: ANY_COUNT,
    fourth: ANY_COUNT,
    fifth: OPEN_OFFSET,
};

// (word 4, count, count, offset)
pub const ANNOUNCEMENT: Shape = Shape {
    count: 4,
    word: ANNOUNCING,
    third: GIVEN_COUNT,
    fourth: GIVEN_OFFSET,
    fifth: NONE,
};

// (word 4, count, undefined count, undefined offset)
pub const ANNOUNCEMENT_TEMPLATE: Shape = Shape {
    count: 4,
    word: ANNOUNCING,
    third: UNDEFINED_COUNT,
    fourth: UNDEFINED_OFFSET,
    fifth: NONE,
};
