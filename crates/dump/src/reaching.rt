// Whether the script that a space is written as ends in that space.
ghost use Rattle.std.specs.Prelude.{◌≡◌, true};
ghost use Rattle.dump.specs.Dumps.{is_appended, is_reached};
ghost use Rattle.space.specs.Configs.{has_list};
ghost use Rattle.space.specs.Spaces.{well_formed};

use crate::appending::call_of;
use crate::tabling::is_reached_tabled;
use calls::judge_unchecked;
use space::Space;
use tuple::Outcome;

// Whether each tuple's call, on the tuples before it, is answered done or inserted.
pub(crate) fn is_reached(space: Space) -> bool
    requires { well_formed space ≡ true }
    ensures { result ≡ is_reached space }
{
    if space.config.has_list() {
        return is_reached_listed(space);
    }
    is_reached_tabled(space)
}

// Under the policies that look at the tuples: each call is judged on the same places with a smaller count, and what stands behind the count is not looked
// at (docs/DECISIONS.md, "Functions that leave a test out"). The table is empty, before and behind.
fn is_reached_listed(space: Space) -> bool
    requires space_value { well_formed space ≡ true }
    requires config_value { has_list space.config ≡ true }
    ensures { result ≡ is_reached space }
{
    let config = space.config;
    let mut before = space;
    for (i, tuple) in space.tuples[..space.count].iter().enumerate() {
        before.count = i;
        let effect = judge_unchecked(before, call_of(config, *tuple));
        if !is_appended(effect.reply.outcome) {
            return false;
        }
    }
    true
}

// Whether an answer says that the call's entry was appended.
fn is_appended(outcome: Outcome) -> bool
    ensures { result ≡ is_appended outcome }
{
    matches!(outcome, Outcome::Done | Outcome::Inserted)
}
