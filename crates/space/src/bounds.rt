// The bounds of configurations: the most processes, the number of rounds, the places of the table of proposals, the last policy, and how many choices policy 3
// may have.
pub const PROCESSES: usize = 31;

pub const ROUNDS: u64 = 8;

pub const PLACES: usize = ROUNDS as usize * PROCESSES;

pub const LAST_POLICY: u64 = 5;

pub const FEWEST_CHOICES: u64 = 2;

pub const MOST_CHOICES: u64 = 8;
