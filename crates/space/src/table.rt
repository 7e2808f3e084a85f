// The table by round and process of what is proposed, and what the policies ask, answered from it.
ghost use Rattle.std.specs.Prelude.{◌≡◌, Some, None, cond};
ghost use Rattle.space.specs.Shapes.{round_of, process_of};
ghost use Rattle.space.specs.Tables.{has_place, place as place·, code_at, belongs, entered, fits_table, proposed_in, backers_in, is_few, by_table};

use crate::bounds::{PLACES, PROCESSES, ROUNDS};
use crate::config::Config;
use crate::member::{count_members, every_member};
use crate::proposal::{Sought, is_sought, offered};
use crate::questions::Questions;
use crate::shape::is_proposal;
use tuple::Tuple;

// The place of a round and a process. The round may be any count, and is tested before it is multiplied.
#[tactic(auto, unfolding(crate::specs::Tables::has_place), using(crate::proofs::TableSteps::known_some))]
fn place_of(config: Config, round: u64, process: u64) -> Option<usize>
    ensures { result ≡ cond (has_place config round process) (Some (place· round process)) None }
{
    if round < ROUNDS && config.knows(process) && process <= PROCESSES as u64 {
        Some(round as usize * PROCESSES + (process as usize - 1))
    } else {
        None
    }
}

// The place where a tuple is entered, if it belongs in the table.
#[tactic(auto, unfolding(crate::specs::Tables::belongs))]
fn place_for(config: Config, tuple: Tuple) -> Option<usize>
    ensures { result ≡ cond (belongs config tuple) (Some (place· (round_of tuple) (process_of tuple))) None }
{
    if config.has_proposals() && is_proposal(tuple) {
        place_of(config, tuple.fields[1].value, tuple.fields[2].value)
    } else {
        None
    }
}

// Enters a tuple's code, if it belongs in the table.
pub fn enter(config: Config, table: &mut [u64; PLACES], tuple: Tuple)
    ensures { table.new ≡ entered config table.old tuple }
{
    if let Some(place) = place_for(config, tuple) {
        table[place] = tuple.fields[3].value;
    }
}

// Whether a tuple that belongs in the table is of what may be proposed, and finds its place free.
pub(crate) fn fits_table(config: Config, table: &[u64; PLACES], tuple: Tuple) -> bool
    ensures { result ≡ fits_table config table.now tuple }
{
    match place_for(config, tuple) {
        Some(place) => offered(config, tuple.fields[3].value) && table[place] == 0,
        None => true,
    }
}

// A table, and the configuration of its space.
#[derive(Clone, Copy)]
pub struct Tabled<'a> {
    pub config: Config,
    pub table: &'a [u64; PLACES],
}

// From the table.
impl Questions for Tabled<'_> {
    ghost asked = { λ tabled. by_table tabled.config tabled.table.now };

    fn is_taken(&self, round: u64, process: u64) -> bool {
        self.code_at(round, process) != 0
    }

    fn every_proposed(&self, sought: Sought, round: u64, set: u64) -> bool {
        every_member(
            self.config.n,
            set,
            |process| self.has_proposed(sought, round, process),
        )
    }

    fn is_crowded(&self, round: u64, set: u64) -> bool {
        !every_member(
            self.config.n,
            set,
            |process| self.is_few(round, set, process),
        )
    }
}

impl Tabled<'_> {
    // The code that stands at a round and a process, 0 for none.
    fn code_at(&self, round: u64, process: u64) -> u64
        ensures { result ≡ code_at self.now.config self.now.table.now round process }
    {
        match place_of(self.config, round, process) {
            Some(place) => self.table[place],
            None => 0,
        }
    }

    // Whether a process has such a proposal in the round.
    #[tactic(auto, unfolding(crate::specs::Tables::proposed_in))]
    fn has_proposed(&self, sought: Sought, round: u64, process: u64) -> bool
        ensures { result ≡ proposed_in self.now.config self.now.table.now sought round process }
    {
        let code = self.code_at(round, process);
        code != 0 && is_sought(self.config, sought, code)
    }

    // How many members of a set, in 1 to n, have proposed the offset of a code in the round.
    #[tactic(auto, unfolding(crate::specs::Tables::backers_in))]
    fn backers(&self, round: u64, set: u64, code: u64) -> u64
        ensures { result ≡ backers_in self.now.config self.now.table.now round set code }
    {
        count_members(self.config.n, set, |process| {
            self.has_proposed(Sought::One(code), round, process)
        })
    }

    // Whether the code of a process is proposed in the round by at most t members of a set.
    #[tactic(auto, unfolding(crate::specs::Tables::is_few))]
    fn is_few(&self, round: u64, set: u64, process: u64) -> bool
        ensures { result ≡ is_few self.now.config self.now.table.now round set process }
    {
        self.backers(round, set, self.code_at(round, process)) <= self.config.t
    }
}
