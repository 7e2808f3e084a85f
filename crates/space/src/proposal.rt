// What may be proposed and decided, and what is proposed in a round, found by a search of a space's tuples.
ghost use Rattle.std.specs.Prelude.{◌≡◌, cond};
ghost use Rattle.space.specs.Members.{strike as strike·};
ghost use Rattle.space.specs.Proposals.{is_choice, offered as offered·, decidable as decidable·, is_sought, proposes as proposes·, backers as backers·};
ghost use Rattle.space.specs.Questions.{by_search};
ghost use Rattle.space.specs.Shapes.{process_of};
ghost use Rattle.space.specs.Spaces.{held as held·};

use crate::config::Config;
use crate::member::{has_none, strike};
use crate::questions::Questions;
use crate::shape::is_proposal;
use crate::space::{Space, held};
use tuple::{BOTTOM, LARGEST_CODE, Tuple};

// Which proposals are looked for.
#[derive(Clone, Copy)]
pub enum Sought {
    // Those of this offset.
    One(u64),
    // Those of some offset that may be proposed.
    Some,
    // Those of any offset or bottom.
    Any,
}

// Whether the offset of a code may be proposed.
#[tactic(auto, unfolding(crate::specs::Proposals::offered))]
pub fn offered(config: Config, code: u64) -> bool
    ensures { result ≡ offered· config code }
{
    code != BOTTOM && code <= LARGEST_CODE && (!config.has_choices() || is_choice(config.k, code))
}

// Whether a code is that of one of the offsets 0 to k - 1.
#[tactic(auto, unfolding(crate::specs::Proposals::is_choice))]
fn is_choice(k: u64, code: u64) -> bool
    ensures { result ≡ is_choice k code }
{
    code % 2 == 1 && code / 2 < k
}

// Whether the offset of a code may be decided.
#[tactic(auto, unfolding(crate::specs::Proposals::decidable))]
pub fn decidable(config: Config, code: u64) -> bool
    ensures { result ≡ decidable· config code }
{
    offered(config, code) || config.policy == 2 && code == BOTTOM
}

pub(crate) fn is_sought(config: Config, sought: Sought, code: u64) -> bool
    ensures { result ≡ is_sought config sought code }
{
    match sought {
        Sought::One(w) => offered(config, w) && code == w,
        Sought::Some => offered(config, code),
        Sought::Any => true,
    }
}

// Whether a tuple is such a proposal, of this round and process.
#[tactic(auto, unfolding(crate::specs::Proposals::proposes))]
fn proposes(config: Config, sought: Sought, round: u64, process: u64, tuple: Tuple) -> bool
    ensures { result ≡ proposes· config sought round process tuple }
{
    // Most tuples are of another round.
    tuple.fields[1].value == round
        && is_proposal(tuple)
        && tuple.fields[2].value == process
        && is_sought(config, sought, tuple.fields[3].value)
}

// By a search of the tuples, the plain way.
impl Questions for Space {
    ghost asked = { λ space. by_search space.config (held· space) };

    fn is_taken(&self, round: u64, process: u64) -> bool {
        held(self).iter().any(|tuple| proposes(self.config, Sought::Any, round, process, *tuple))
    }

    // In one pass: each member is struck off the set when it is met.
    fn every_proposed(&self, sought: Sought, round: u64, set: u64) -> bool {
        let mut rest = set;
        for tuple in held(self) {
            rest = strike_proposer(self.config, sought, round, *tuple, rest);
        }
        has_none(self.config.n, rest)
    }

    fn is_crowded(&self, round: u64, set: u64) -> bool {
        held(self).iter().any(|tuple| {
            is_proposal(*tuple)
                && tuple.fields[1].value == round
                && self.config.t < backers(self, round, set, tuple.fields[3].value)
        })
    }
}

// How many members of a set, in 1 to n, have proposed the offset of a code in the round. Each is struck off the set when it is met, so that
// it is counted once.
fn backers(space: &Space, round: u64, set: u64, code: u64) -> u64
    ensures { result ≡ backers· space.now.config (held· space.now) round set code }
{
    let mut rest = set;
    let mut total = 0;
    for tuple in held(space) {
        let left = strike_proposer(space.config, Sought::One(code), round, *tuple, rest);
        if left != rest {
            total += 1;
        }
        rest = left;
    }
    total
}

// The set without the process of a tuple that is such a proposal of the round.
fn strike_proposer(config: Config, sought: Sought, round: u64, tuple: Tuple, set: u64) -> u64
    ensures { result ≡ cond (proposes· config sought round (process_of tuple) tuple) (strike· (process_of tuple) config.n 1 set) set }
{
    let process = tuple.fields[2].value;
    if proposes(config, sought, round, process, tuple) {
        strike(process, config.n, set)
    } else {
        set
    }
}
