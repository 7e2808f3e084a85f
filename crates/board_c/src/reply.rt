// Replies, and what opening a space, a call on it and reading a record answer, with numbers in place of enums.
ghost use Rattle.std.specs.Prelude.{◌≡◌};
ghost use Rattle.board_c.specs.Flat.{flat_reply, flat_applied, flat_read, reply_of};
ghost use Rattle.tuple.specs.Refusals.{refusal as refusal·};

use calls::Applied;
use record::ReadCall;
use space::Space;
use tuple::{Call, Outcome, Refusal, Reply, Tuple};

// A reply: the outcome's number (0 done, 1 none, 2 found, 3 inserted, 4 held, 5 refused), the refusal's number, 0 where there is none,
// and the tuple.
#[repr(C)]
#[derive(Clone, Copy)]
pub struct FlatReply {
    pub outcome: u32,
    pub refusal: u32,
    pub tuple: Tuple,
}

// A fresh space, and 0; or the refusal's number beside a blank one.
#[repr(C)]
#[derive(Clone, Copy)]
pub struct FlatOpened {
    pub refusal: u64,
    pub space: Space,
}

// What a call on a space answers, and the space afterwards.
#[repr(C)]
#[derive(Clone, Copy)]
pub struct FlatApplied {
    pub reply: FlatReply,
    pub space: Space,
}

// A call and the place behind it, and 0; or the refusal's number beside place 0 and a blank call.
#[repr(C)]
#[derive(Clone, Copy)]
pub struct FlatRead {
    pub refusal: u64,
    pub next: usize,
    pub call: Call,
}

impl From<Applied> for FlatApplied {
    ghost from_gives = { λ applied flat. flat ≡ flat_applied applied };

    fn from(applied: Applied) -> FlatApplied {
        FlatApplied {
            reply: FlatReply::from(applied.reply),
            space: applied.space,
        }
    }
}

impl From<Reply> for FlatReply {
    ghost from_gives = { λ reply flat. flat ≡ flat_reply reply };

    fn from(reply: Reply) -> FlatReply {
        let (outcome, refusal) = match reply.outcome {
            Outcome::Done => (0, 0),
            Outcome::None => (1, 0),
            Outcome::Found => (2, 0),
            Outcome::Inserted => (3, 0),
            Outcome::Held => (4, 0),
            Outcome::Refused(refusal) => (5, refusal.number()),
        };
        FlatReply {
            outcome,
            refusal,
            tuple: reply.tuple,
        }
    }
}

impl From<ReadCall> for FlatRead {
    ghost from_gives = { λ read flat. flat ≡ flat_read read };

    fn from(read: ReadCall) -> FlatRead {
        let (refusal, next) = match read.next {
            Ok(cursor) => (0, cursor.at),
            Err(refusal) => (u64::from(refusal.number()), 0),
        };
        FlatRead {
            refusal,
            next,
            call: read.call,
        }
    }
}

// ---- a reply that is handed in

impl From<FlatReply> for Reply {
    ghost from_gives = { λ flat reply. reply ≡ reply_of flat };

    #[tactic(auto, unfolding(crate::specs::Flat::outcome_of, crate::specs::Flat::plain_outcome))]
    fn from(flat: FlatReply) -> Reply {
        let outcome = match (flat.refusal, flat.outcome) {
            (0, 0) => Outcome::Done,
            (0, 1) => Outcome::None,
            (0, 2) => Outcome::Found,
            (0, 3) => Outcome::Inserted,
            (0, 4) => Outcome::Held,
            // What is no outcome's number is a refusal, which fits nowhere,
            (0, _) => Outcome::Refused(Refusal::Unfit),
            // and what has a refusal's number is that refusal.
            (number, _) => Outcome::Refused(refusal_of(number)),
        };
        Reply {
            outcome,
            tuple: flat.tuple,
        }
    }
}

// The refusal of a number; what is no number of one is taken for the last.
fn refusal_of(number: u32) -> Refusal
    ensures { result ≡ refusal· number }
{
    match number {
        1 => Refusal::Unsound,
        2 => Refusal::Cut,
        3 => Refusal::Beyond,
        4 => Refusal::Unknown,
        5 => Refusal::Misshapen,
        6 => Refusal::Stranger,
        7 => Refusal::Denied,
        8 => Refusal::Full,
        9 => Refusal::LongScript,
        10 => Refusal::NoRoom,
        11 => Refusal::Unfit,
        12 => Refusal::SecondProposal,
        13 => Refusal::Unborne,
        14 => Refusal::Unreached,
        _ => Refusal::Unscripted,
    }
}
