// The head of a script: its length, and the set-up at its start: n, t and the policy number, and under policy 3 k.
ghost use Rattle.std.specs.Prelude.{◌≡◌};
ghost use Rattle.script.specs.Scripts.{behind_policy, config_of, script_head};

use crate::SCRIPT_BYTES;
use record::{Cursor, Reading};
use space::Config;
use tuple::Refusal;

// The set-up of a script whose records are to be made on a fresh space, and the position behind it; or 9, then 2 or 3 for a set-up that can't be read, then 1
// for one that is not sound.
#[tactic(auto, unfolding(crate::specs::Scripts::script_head))]
pub fn head(script: &[u8]) -> Reading<Config>
    ensures { result ≡ script_head script.now }
{
    if SCRIPT_BYTES < script.len() {
        return Err(Refusal::LongScript);
    }
    let (config, start) = read_config(script)?;
    if !config.is_sound() {
        return Err(Refusal::Unsound);
    }
    Ok((config, start))
}

#[tactic(auto, unfolding(crate::specs::Scripts::config_of))]
pub(crate) fn read_config(script: &[u8]) -> Reading<Config>
    ensures { result ≡ config_of script.now }
{
    let (n, behind_n) = Cursor { at: 0 }.number(script)?;
    let (t, behind_t) = behind_n.number(script)?;
    let (policy, behind_policy) = behind_t.number(script)?;
    let config = Config { n, t, policy, k: 0 };
    with_choices(script, behind_policy, config)
}

// The configuration, under policy 3 with the k that stands at a position.
fn with_choices(script: &[u8], at: Cursor, config: Config) -> Reading<Config>
    ensures { result ≡ behind_policy script.now config at.at }
{
    if !config.has_choices() {
        return Ok((config, at));
    }
    let (k, end) = at.number(script)?;
    Ok((Config { k, ..config }, end))
}
