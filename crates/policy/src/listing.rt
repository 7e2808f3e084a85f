// Policies 4 and 5: a list of shifts that all processes share, under 5 with announcements.
ghost use Rattle.std.specs.Prelude.{◌≡◌};
ghost use Rattle.policy.specs.Listing.{is_list_template, same_position, is_list_call, is_new, follows as follows·, preferred as preferred·, owed as owed·, is_due, may_list, may_announce, may_take_off, shared as shared·, unlisted as unlisted·};
ghost use Rattle.space.specs.Spaces.{held};

use crate::verdicts::permitted_if;
use space::{
    Config, Space, is_announcement, is_filled, is_list_tuple, is_listed, oldest_announced,
};
use tuple::{
    ANNOUNCEMENT_TEMPLATE, BOTTOM, CAS, Call, INP, LIST_TEMPLATE, OUT, RDP, Refusal, Tuple,
    Verdict, has_shape,
};

// The positions of the list are 1 to this.
const POSITIONS: u64 = 112;

// The verdict of policies 4, after Fig. 7, and 5, after Fig. 8.
#[tactic(auto, unfolding(crate::specs::Listing::shared, crate::specs::Listing::unlisted))]
pub(crate) fn shared(space: Space, call: Call) -> Verdict
    ensures { result ≡ shared· space.config (held space) call }
{
    match call.code {
        CAS => permitted_if(may_list(space, call)),
        OUT => permitted_if(may_announce(space, call)),
        _ => unlisted(space.config, call),
    }
}

// The same of a call that looks at no tuple, as rdp and inp do.
#[tactic(auto, unfolding(crate::specs::Listing::unlisted))]
pub(crate) fn unlisted(config: Config, call: Call) -> Verdict
    ensures { result ≡ unlisted· config call }
{
    match call.code {
        RDP => Ok(()),
        INP => permitted_if(may_take_off(config, call)),
        _ => Err(Refusal::Denied),
    }
}

// ---- cas

// Whether a cas lists what is due, under a serial that is not listed yet, at position 1 or behind a filled one.
#[tactic(auto, unfolding(crate::specs::Listing::may_list))]
fn may_list(space: Space, call: Call) -> bool
    ensures { result ≡ may_list space.config (held space) call }
{
    let entry = call.entry;
    is_list_call(call) && is_due(space, call) && is_new(space, entry) && follows(space, entry)
}

// Whether a cas has the two shapes on one position, 1 to 112, with a shift that is not bottom.
#[tactic(auto, unfolding(crate::specs::Listing::is_list_call))]
fn is_list_call(call: Call) -> bool
    ensures { result ≡ is_list_call call }
{
    let template = call.template;
    let entry = call.entry;
    let fifth = entry.fields[4];
    is_list_template(template)
        && is_list_tuple(entry)
        && same_position(template, entry)
        && fifth.value != BOTTOM
}

// (word 3, count, any count, any count, open offset)
fn is_list_template(tuple: Tuple) -> bool
    ensures { result ≡ is_list_template tuple }
{
    has_shape(tuple, LIST_TEMPLATE)
}

// Whether both tuples of a cas name one position, 1 to 112.
fn same_position(template: Tuple, entry: Tuple) -> bool
    ensures { result ≡ same_position template entry }
{
    let asked = template.fields[1];
    let given = entry.fields[1];
    let position = given.value;
    asked.value == position && (1..=POSITIONS).contains(&position)
}

// Whether the entry's process and serial are not listed yet.
#[tactic(auto, unfolding(crate::specs::Listing::is_new))]
fn is_new(space: Space, entry: Tuple) -> bool
    ensures { result ≡ is_new (held space) entry }
{
    let third = entry.fields[2];
    let fourth = entry.fields[3];
    !is_listed(space, third.value, fourth.value)
}

// Whether the entry's position is 1, or the one before it is filled.
#[tactic(auto, unfolding(crate::specs::Listing::follows, crate::specs::Listing::begins))]
fn follows(space: Space, entry: Tuple) -> bool
    ensures { result ≡ follows· (held space) entry }
{
    let second = entry.fields[1];
    let position = second.value;
    position <= 1 || is_filled(space, position - 1)
}

// ---- whose entry it may be

// Whether an entry is what is owed at its position; or, where nothing is, of the caller's own number.
#[tactic(auto, unfolding(crate::specs::Listing::is_due))]
fn is_due(space: Space, call: Call) -> bool
    ensures { result ≡ is_due space.config (held space) call }
{
    let entry = call.entry;
    let second = entry.fields[1];
    let third = entry.fields[2];
    let fourth = entry.fields[3];
    let fifth = entry.fields[4];
    let caller = u64::from(call.process);
    let process = preferred(space.config, second.value);
    match owed(space, second.value) {
        None => third.value == caller,
        Some((serial, code)) => {
            third.value == process && fourth.value == serial && fifth.value == code
        }
    }
}

// What is owed at a position: under policy 5 the oldest announcement of its preferred process, if its serial is not listed.
#[tactic(auto, unfolding(crate::specs::Listing::owed))]
fn owed(space: Space, position: u64) -> Option<(u64, u64)>
    ensures { result ≡ owed· space.config (held space) position }
{
    if !space.config.has_announcements() {
        return None;
    }
    let process = preferred(space.config, position);
    match oldest_announced(space, process) {
        Some((serial, code)) if !is_listed(space, process, serial) => { Some((serial, code)) }
        _ => None,
    }
}

// The remainder of a position by n, and n where that is zero. By an n of 0, which no sound configuration has, it is the position, as in the definition.
#[tactic(auto, unfolding(crate::specs::Listing::preferred))]
fn preferred(config: Config, position: u64) -> u64
    ensures { result ≡ preferred· config.n position }
{
    match position.checked_rem(config.n) {
        Some(0) => config.n,
        Some(process) => process,
        None => position,
    }
}

// ---- out and inp, under policy 5

// Whether an out is of an announcement of the caller's own number, while none of its own stands.
#[tactic(auto, unfolding(crate::specs::Listing::may_announce))]
fn may_announce(space: Space, call: Call) -> bool
    ensures { result ≡ may_announce space.config (held space) call }
{
    let entry = call.entry;
    let second = entry.fields[1];
    let caller = u64::from(call.process);
    space.config.has_announcements()
        && is_announcement(entry)
        && second.value == caller
        && oldest_announced(space, caller).is_none()
}

// Whether an inp has a template of word 4 and the caller's own number, the other two fields undefined.
#[tactic(auto, unfolding(crate::specs::Listing::may_take_off))]
fn may_take_off(config: Config, call: Call) -> bool
    ensures { result ≡ may_take_off config call }
{
    let template = call.template;
    let second = template.fields[1];
    let caller = u64::from(call.process);
    config.has_announcements()
        && has_shape(template, ANNOUNCEMENT_TEMPLATE)
        && second.value == caller
}
