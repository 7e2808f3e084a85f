// What a process has found: who backs an offset, when reading stops, and whom to read next.
ghost use Rattle.std.specs.Prelude.{◌≡◌, ◌≤◌};
ghost use Rattle.process.specs.Tallies.{backs as backs·, backing as backing·, backing_set, is_backed, backed as backed·, settled as settled·, free_behind, next_after};
ghost use Rattle.space.specs.Bounds.{processes};

use space::{Config, PROCESSES};
use tuple::BOTTOM;

// Whether a process found with this code backs a value: bottom is backed by every process that is found.
#[tactic(auto, unfolding(crate::specs::Tallies::backs))]
fn backs(value: u64, code: u64) -> bool
    ensures { result ≡ backs· value code }
{
    if value == BOTTOM {
        code != 0
    } else {
        code == value
    }
}

// How many of the found processes back a value.
#[tactic(auto, using(crate::proofs::TallySteps::counts_all))]
fn backing(found: [u64; PROCESSES], value: u64) -> u64
    ensures { result ≡ backing· value found }
{
    let mut total: u64 = 0;
    for code in &found {
        total += u64::from(backs(value, *code));
    }
    total
}

// All found processes that back a value, as a set.
#[tactic(auto, using(crate::proofs::TallySteps::set_none, crate::proofs::TallySteps::set_small, crate::proofs::TallySteps::set_next))]
pub(crate) fn backing_set(found: [u64; PROCESSES], value: u64) -> u64
    ensures { result ≡ backing_set value found }
{
    let mut set: u64 = 0;
    for i in (0..PROCESSES).rev() {
        set = 2 * set + u64::from(backs(value, found[i]));
    }
    set
}

// The offset that t + 1 found processes have proposed, or bottom.
pub(crate) fn backed(found: [u64; PROCESSES], t: u64) -> u64
    ensures { result ≡ backed· t found }
{
    found
        .iter()
        .copied()
        .find(|code| is_backed(found, t, *code))
        .unwrap_or(BOTTOM)
}

#[tactic(auto, unfolding(crate::specs::Tallies::is_backed))]
fn is_backed(found: [u64; PROCESSES], t: u64, code: u64) -> bool
    ensures { result ≡ is_backed t found code }
{
    code != 0 && t < backing(found, code)
}

// Whether reading stops: some offset has t + 1 found processes, or n - t processes are found. How many are found is tested first:
// where n - t or at most t are, no offset need be tried.
#[tactic(auto, using(crate::proofs::SettledSteps::few_settled), unfolding(crate::specs::Tallies::settled))]
pub(crate) fn settled(config: Config, found: [u64; PROCESSES]) -> bool
    requires { config.t ≤ config.n }
    ensures { result ≡ settled· config found }
{
    let count = backing(found, BOTTOM);
    config.n - config.t <= count || (config.t < count && backed(found, config.t) != BOTTOM)
}

// The first of the processes 1 to n behind the first k that is not found, or 0.
#[tactic(auto, using(crate::proofs::TallySteps::free_here, crate::proofs::TallySteps::free_more, crate::proofs::TallySteps::free_end))]
fn free_behind(found: [u64; PROCESSES], n: u64, k: u64) -> u64
    requires n_le_processes { n ≤ processes }
    requires k_le_n { k ≤ n }
    ensures { result ≡ free_behind n found k }
{
    for i in k..n {
        if found[i as usize] == 0 {
            return i + 1;
        }
    }
    0
}

// The process to read behind the one asked, round again behind the last.
#[tactic(auto, unfolding(crate::specs::Tallies::next_after))]
pub(crate) fn next_after(found: [u64; PROCESSES], n: u64, asked: u64) -> u64
    requires n_le_processes { n ≤ processes }
    requires asked_le_n { asked ≤ n }
    ensures { result ≡ next_after n found asked }
{
    let later = free_behind(found, n, asked);
    if later == 0 {
        free_behind(found, n, 0)
    } else {
        later
    }
}
