// The verdict of a policy: policies 0 to 3 have the table lent, 4 and 5 look at the tuples for an out and a cas.
ghost use Rattle.std.specs.Prelude.{◌≡◌};
ghost use Rattle.policy.specs.Policies.{table_verdict, list_verdict, asks_tuples, lent_verdict};

use crate::justified::justified;
use crate::listing::{shared, unlisted};
use crate::weak::weak;
use space::{Config, PLACES, Space, Tabled, is_bounded};
use tuple::{CAS, Call, OUT, Refusal, Verdict};

// Whether the policy asks about the tuples to judge a call of this code: under policies 4 and 5 of an out and a cas.
#[tactic(auto, unfolding(crate::specs::Policies::asks_tuples))]
pub fn asks_tuples(config: Config, code: u32) -> bool
    ensures { result ≡ asks_tuples config code }
{
    config.has_list() && matches!(code, OUT | CAS)
}

// The verdict on any other call, of policies 0 to 3 from the table. Of a configuration that is not sound it is 1.
#[tactic(auto, unfolding(crate::specs::Policies::lent_verdict))]
pub fn lent_verdict(config: Config, table: &[u64; PLACES], call: Call) -> Verdict
    ensures { result ≡ lent_verdict config table.now call }
{
    if !config.has_list() {
        return table_verdict(config, table, call);
    }
    if !config.is_sound() {
        return Err(Refusal::Unsound);
    }
    unlisted(config, call)
}

// The verdict of policies 0 to 3 on a call, from the table. Of a configuration that is not sound it is 1.
#[tactic(auto, unfolding(crate::specs::Policies::table_verdict))]
pub fn table_verdict(config: Config, table: &[u64; PLACES], call: Call) -> Verdict
    ensures { result ≡ table_verdict config table.now call }
{
    if !config.is_sound() {
        return Err(Refusal::Unsound);
    }
    match config.policy {
        0 => Ok(()),
        1 => weak(call),
        _ if config.has_proposals() => justified(config, &Tabled { config, table }, call),
        _ => Err(Refusal::Denied),
    }
}

// The verdict of policies 4 and 5 on a call. Of a space whose configuration or count is out of bounds it is 1.
#[tactic(auto, unfolding(crate::specs::Policies::list_verdict, space::specs::Spaces::bounded))]
pub fn list_verdict(space: Space, call: Call) -> Verdict
    ensures { result ≡ list_verdict space call }
{
    let config = space.config;
    if !is_bounded(config, space.count) {
        return Err(Refusal::Unsound);
    }
    if config.has_list() {
        return shared(space, call);
    }
    Err(Refusal::Denied)
}
