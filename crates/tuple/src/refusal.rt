// Why something is refused, by the numbers of documents 01 and 02.
ghost use Rattle.std.specs.Prelude.{◌≡◌};
ghost use Rattle.tuple.specs.Refusals.{number_of};

#[derive(Clone, Copy)]
pub enum Refusal {
    // 1: a configuration that is not sound, starting a process under a policy other than 2 and 3, or a space or process state that is
    // not well formed.
    Unsound,
    // 2: the bytes end inside a number or record.
    Cut,
    // 3: a number too long or not shortest, a process of a record above 4,294,967,295, a value beyond its kind, or on starting a
    // process a round or an offset that is not allowed.
    Beyond,
    // 4: an unknown call code or head.
    Unknown,
    // 5: a field count not 1 to 6, an undefined field in an entry, or an unused part that is not zero.
    Misshapen,
    // 6: process 0, or one above n.
    Stranger,
    // 7: the policy doesn't permit the call, for another cause than 12 and 13.
    Denied,
    // 8: no place for another tuple.
    Full,
    // 9: a script too long.
    LongScript,
    // 10: a buffer shorter than what is to be written.
    NoRoom,
    // 11: a reply that doesn't fit the process's state.
    Unfit,
    // 12: a second proposal of a process in a round.
    SecondProposal,
    // 13: a set that doesn't bear its offset.
    Unborne,
    // 14: a space that no script ends in.
    Unreached,
    // 15: a space of policy 5 that is to be written as a script.
    Unscripted,
}

// Whether a test passes, or its refusal.
pub type Verdict = Result<(), Refusal>;

impl Refusal {
    // The number of a refusal.
    pub fn number(self) -> u32
        ensures { result ≡ number_of self }
    {
        match self {
            Refusal::Unsound => 1,
            Refusal::Cut => 2,
            Refusal::Beyond => 3,
            Refusal::Unknown => 4,
            Refusal::Misshapen => 5,
            Refusal::Stranger => 6,
            Refusal::Denied => 7,
            Refusal::Full => 8,
            Refusal::LongScript => 9,
            Refusal::NoRoom => 10,
            Refusal::Unfit => 11,
            Refusal::SecondProposal => 12,
            Refusal::Unborne => 13,
            Refusal::Unreached => 14,
            Refusal::Unscripted => 15,
        }
    }
}
