// Members of a set of processes, and where each is kept.
ghost use Rattle.std.specs.Prelude.{◌≡◌, ◌-◌, cond};
ghost use Rattle.monitor.specs.Private.{is_member};
ghost use Rattle.space.specs.Bounds.{processes};

use space::PROCESSES;

// The place of a process of 1 to n that is in the set, and behind all of them that of any other.
pub(crate) fn place_of(n: u64, set: u64, process: u32) -> usize
    ensures { result ≡ cond (is_member n set process) (process - 1) processes }
{
    if is_member(n, set, u64::from(process)) {
        process as usize - 1
    } else {
        PROCESSES
    }
}

// Whether a process is one of 1 to n whose bit is set; a set has 64 bits.
fn is_member(n: u64, set: u64, process: u64) -> bool
    ensures { result ≡ is_member n set process }
{
    (1..=n.min(64)).contains(&process) && (set >> (process - 1)) % 2 == 1
}
