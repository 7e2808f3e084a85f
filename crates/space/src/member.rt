// Sets of processes as numbers: process k is the bit worth 2 to the power k - 1.
ghost use Rattle.std.specs.Prelude.{◌≡◌, ℕ, Bool, false};
ghost use Rattle.space.specs.Members.{within as within·, Answers, every, counted, strike as strike·};

// Whether all of a set is in 1 to n. A set is of 64 bits.
pub fn within(n: u64, set: u64) -> bool
    ensures { result ≡ within· n set }
{
    64 <= n || set >> n == 0
}

// Whether every member of a set, in 1 to n, passes a test.
pub(crate) fn every_member<F: Fn(u64) -> bool>(n: u64, set: u64, passes: F) -> bool
    requires { F.IsAlwaysCallable passes }
    ensures { (test : _) → Answers n (F.post passes) test → result ≡ every test n 1 set }
{
    let mut rest = set;
    for k in 0..n {
        // Nobody is left: most sets have few high bits.
        if rest == 0 {
            break;
        }
        if rest % 2 == 1 && !passes(k + 1) {
            return false;
        }
        rest /= 2;
    }
    true
}

// How many members of a set, in 1 to n, pass a test.
pub(crate) fn count_members<F: Fn(u64) -> bool>(n: u64, set: u64, passes: F) -> u64
    requires { F.IsAlwaysCallable passes }
    ensures { (test : _) → Answers n (F.post passes) test → result ≡ counted test n 1 set }
{
    let mut total = 0;
    let mut rest = set;
    for k in 0..n {
        // Nobody is left.
        if rest == 0 {
            break;
        }
        if rest % 2 == 1 && passes(k + 1) {
            total += 1;
        }
        rest /= 2;
    }
    total
}

// Whether none of 1 to n is in a set.
pub(crate) fn has_none(n: u64, set: u64) -> bool
    ensures { result ≡ every (λ k. false) n 1 set }
{
    every_member(n, set, |_| false)
}

// A set without a process, if that is one of 1 to n. A set is of 64 bits, so that processes above 64 are in none.
pub(crate) fn strike(process: u64, n: u64, set: u64) -> u64
    ensures { result ≡ strike· process n 1 set }
{
    if 1 <= process && process <= n && process <= 64 {
        set & !(1 << (process - 1))
    } else {
        set
    }
}
