// The call that appends a tuple to a space.
ghost use Rattle.std.specs.Prelude.{◌≡◌, true};
ghost use Rattle.dump.specs.Appending.{own_process, template_of, call_of};
ghost use Rattle.space.specs.Configs.{sound};
ghost use Rattle.space.specs.Lists.{position_of};
ghost use Rattle.tuple.specs.Forms.{list_template};

use space::{Config, is_proposal};
use tuple::{Call, DECISION_TEMPLATE, LIST_TEMPLATE, Tuple, WEAK_TEMPLATE, make};

// The process that appends what has no process of its own.
const PROCESS_ONE: u32 = 1;

// For a proposal an out by its own process, for a decision a cas by process 1, and under policy 0 for every tuple an out by process 1; under policy 4
// for a list tuple a cas by its own process. For any other tuple it is a call that the policy never permits.
#[tactic(auto, unfolding(crate::specs::Appending::call_of))]
pub(crate) fn call_of(config: Config, tuple: Tuple) -> Call
    requires { sound config ≡ true }
    ensures { result ≡ call_of config tuple }
{
    if config.policy == 0 {
        return Call::out(PROCESS_ONE, tuple);
    }
    let own = own_process(config, tuple);
    if config.policy == 4 {
        return Call::cas(own, list_template(tuple), tuple);
    }
    if is_proposal(tuple) {
        return Call::out(own, tuple);
    }
    Call::cas(PROCESS_ONE, template_of(tuple), tuple)
}

// The process of a proposal or a list tuple; 0, which is nobody, if it is none of 1 to n.
fn own_process(config: Config, tuple: Tuple) -> u32
    requires { sound config ≡ true }
    ensures { result ≡ own_process config tuple }
{
    let third = tuple.fields[2];
    let process = third.value;
    if config.knows(process) {
        process as u32
    } else {
        0
    }
}

// The template of a decision's round: its offset is open and, if the decision has a set, its set any.
#[tactic(auto, unfolding(crate::specs::Appending::template_of))]
fn template_of(tuple: Tuple) -> Tuple
    ensures { result ≡ template_of tuple }
{
    let second = tuple.fields[1];
    let round = second.value;
    if tuple.count == 4 {
        make(DECISION_TEMPLATE, round, 0, 0, 0)
    } else {
        make(WEAK_TEMPLATE, round, 0, 0, 0)
    }
}

// The template of a list tuple's position.
fn list_template(tuple: Tuple) -> Tuple
    ensures { result ≡ list_template (position_of tuple) }
{
    let second = tuple.fields[1];
    make(LIST_TEMPLATE, second.value, 0, 0, 0)
}
