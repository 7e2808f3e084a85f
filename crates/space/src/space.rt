// A space: its configuration, its tuples, oldest first, with blanks behind them, and the table of what they propose.
ghost use Rattle.std.specs.Prelude.{◌≡◌, ◌≤◌, cond, []};
ghost use Rattle.space.specs.Configs.{has_proposals};
ghost use Rattle.space.specs.Spaces.{held as held·, space_of, places_from, table_sound, is_bounded, well_formed, fresh_of};
ghost use Rattle.tuple.specs.Bounds.{capacity};

use crate::bounds::PLACES;
use crate::config::Config;
use crate::table::{enter, fits_table};
use tuple::{Refusal, TUPLES, Tuple};

#[repr(C)]
#[derive(Clone, Copy)]
pub struct Space {
    pub config: Config,
    pub count: usize,
    pub tuples: [Tuple; TUPLES],
    // What is proposed, by round and process, under policies 2 and 3: the code at 31 * round + (process - 1), 0 for none.
    pub table: [u64; PLACES],
}

// A fresh space, or refusal 1.
#[tactic(auto, unfolding(crate::specs::Spaces::fresh_of))]
pub fn fresh(config: Config) -> Result<Space, Refusal>
    ensures { result ≡ fresh_of config }
{
    if config.is_sound() {
        Ok(Space::empty(config))
    } else {
        Err(Refusal::Unsound)
    }
}

// The tuples that a space holds, oldest first.
pub(crate) fn held(space: &Space) -> &[Tuple]
    ensures { result.now ≡ held· space.now }
{
    &space.tuples[..space.count.min(TUPLES)]
}

impl Space {
    // The space of a configuration that holds nothing.
    pub fn empty(config: Config) -> Self
        ensures { result ≡ space_of config [] }
    {
        Space {
            config,
            count: 0,
            tuples: [Tuple::blank(); TUPLES],
            table: [0; PLACES],
        }
    }

    // Whether a space is well formed.
    #[tactic(auto, unfolding(crate::specs::Spaces::well_formed, crate::specs::Spaces::bounded))]
    pub fn is_well_formed(self) -> bool
        ensures { result ≡ well_formed self }
    {
        is_bounded(self.config, self.count) && places_sound(self) && table_sound(self)
    }
}

// Whether a space's configuration is sound, and its count no more than its places.
pub fn is_bounded(config: Config, count: usize) -> bool
    ensures { result ≡ is_bounded config count }
{
    config.is_sound() && count <= TUPLES
}

// Whether each used place holds an entry, and each other place nothing.
fn places_sound(space: Space) -> bool
    requires { space.count ≤ capacity }
    ensures { result ≡ places_from space.count space.tuples }
{
    let (used, unused) = space.tuples.split_at(space.count);
    used.iter().all(|tuple| tuple.is_entry()) && unused.iter().all(|tuple| tuple.is_unused())
}

// Whether the tuples held have a table, and it is the space's.
fn table_sound(space: Space) -> bool
    requires { space.count ≤ capacity }
    ensures { result ≡ table_sound space }
{
    let config = space.config;
    let count = count_tabled(config, space.count);
    let mut table = [0; PLACES];
    for tuple in &space.tuples[..count] {
        if !fits_table(config, &table, *tuple) {
            return false;
        }
        enter(config, &mut table, *tuple);
    }
    space.table == table
}

// How many tuples have to be looked at: none where the policy does not rest on proposals.
fn count_tabled(config: Config, count: usize) -> usize
    ensures { result ≡ cond (has_proposals config) count 0 }
{
    if config.has_proposals() { count } else { 0 }
}
