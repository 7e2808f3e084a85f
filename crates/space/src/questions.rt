// What policies 2 and 3 ask about the proposals of a space, whichever way it is answered: by a search of its tuples, or from its table.
ghost use Rattle.std.specs.Prelude.{◌≡◌};
ghost use Rattle.space.specs.Questions.{Asked};

use crate::proposal::Sought;

pub trait Questions {
    // The answers.
    ghost asked: { Self → Asked };

    // Whether a proposal of this round and process stands, of any offset or bottom.
    fn is_taken(&self, round: u64, process: u64) -> bool
        ensures { result ≡ (asked self.now).taken round process };

    // Whether every member of a set, in 1 to n, has such a proposal in the round.
    fn every_proposed(&self, sought: Sought, round: u64, set: u64) -> bool
        ensures { result ≡ (asked self.now).every sought round set };

    // Whether some offset is proposed in the round by more than t members of a set, in 1 to n.
    fn is_crowded(&self, round: u64, set: u64) -> bool
        ensures { result ≡ (asked self.now).crowded round set };
}
