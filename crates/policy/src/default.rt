// Policy 2, default: what bears bottom, which no other policy decides.
ghost use Rattle.std.specs.Prelude.{◌≡◌};
ghost use Rattle.policy.specs.Default.{bears_bottom};

use space::{Config, Questions, Sought};

// Whether a set bears bottom: n - t members that have all proposed, and no offset proposed by more than t of them.
#[tactic(auto, unfolding(crate::specs::Default::bears_bottom))]
pub(crate) fn bears_bottom<Q: Questions>(config: Config, asked: &Q, round: u64, set: u64) -> bool
    ensures { result ≡ bears_bottom config (Q.asked asked.now) round set }
{
    u64::from(set.count_ones()) >= config.n.saturating_sub(config.t)
        && asked.every_proposed(Sought::Some, round, set)
        && !asked.is_crowded(round, set)
}
