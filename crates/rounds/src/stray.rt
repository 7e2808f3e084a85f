// The fixed calls of faulty processes in round 0, one for each pass. -40 has the code 80, 40 the code 81, 5 the code 11, and the choices 0, 1 and 2
// have the codes 1, 3 and 5.
use tuple::{Call, DECISION_ENTRY, DECISION_TEMPLATE, PROPOSAL, make};

// A call of a faulty process, with an offset by its code.
#[derive(Clone, Copy)]
pub(crate) enum Stray {
    // An out of (word 1, count 0, count process, offset).
    Proposes {
        caller: u32,
        process: u64,
        code: u64,
    },
    // A cas of (word 2, count 0, offset, processes), where (word 2, count 0, open offset, any processes) is the template.
    Decides {
        caller: u32,
        code: u64,
        set: u64,
    },
}

// Process 4 among correct ones, under policy 2: its own proposal, a second one, a decision that process 1 does not back, and a proposal for
// process 1.
pub(crate) const DENIED: [Stray; 4] = [
    Stray::Proposes {
        caller: 4,
        process: 4,
        code: 80,
    },
    Stray::Proposes {
        caller: 4,
        process: 4,
        code: 81,
    },
    Stray::Decides {
        caller: 4,
        code: 80,
        set: 9,
    },
    Stray::Proposes {
        caller: 4,
        process: 1,
        code: 80,
    },
];

// Process 4, under policy 2, which gets bottom decided: bottom with the two processes that have proposed, its own proposal, and bottom with all
// three.
pub(crate) const DECIDING: [Stray; 3] = [
    Stray::Decides {
        caller: 4,
        code: 0,
        set: 6,
    },
    Stray::Proposes {
        caller: 4,
        process: 4,
        code: 11,
    },
    Stray::Decides {
        caller: 4,
        code: 0,
        set: 14,
    },
];

// Processes 1 and 9, under policy 3: their own proposals, of two choices, a decision that process 1 does not back, and bottom, with all
// processes.
pub(crate) const CHOOSING: [Stray; 4] = [
    Stray::Proposes {
        caller: 1,
        process: 1,
        code: 1,
    },
    Stray::Proposes {
        caller: 9,
        process: 9,
        code: 3,
    },
    Stray::Decides {
        caller: 1,
        code: 5,
        set: 73,
    },
    Stray::Decides {
        caller: 9,
        code: 0,
        set: 511,
    },
];

impl Stray {
    pub(crate) fn call(self) -> Call {
        match self {
            Stray::Proposes {
                caller,
                process,
                code,
            } => Call::out(caller, make(PROPOSAL, 0, process, code, 0)),
            Stray::Decides { caller, code, set } => Call::cas(
                caller,
                make(DECISION_TEMPLATE, 0, 0, 0, 0),
                make(DECISION_ENTRY, 0, code, set, 0),
            ),
        }
    }
}
