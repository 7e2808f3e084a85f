// Announcements: their shape, and a process's oldest one.
ghost use Rattle.std.specs.Prelude.{◌≡◌};
ghost use Rattle.space.specs.Announcements.{is_announcement, announces as announces·, announced_of};
ghost use Rattle.space.specs.Spaces.{held as held·};

use crate::space::{Space, held};
use tuple::{ANNOUNCEMENT, BOTTOM, Tuple, has_shape};

// (word 4, count, count, offset), the offset not bottom
#[tactic(auto, unfolding(crate::specs::Announcements::is_announcement))]
pub fn is_announcement(tuple: Tuple) -> bool
    ensures { result ≡ is_announcement tuple }
{
    has_shape(tuple, ANNOUNCEMENT) && tuple.fields[3].value != BOTTOM
}

// The oldest announcement of a process, be its serial listed or not.
pub fn oldest_announced(space: Space, process: u64) -> Option<(u64, u64)>
    ensures { result ≡ announced_of (held· space) process }
{
    for tuple in held(&space) {
        if announces(process, *tuple) {
            return Some((tuple.fields[2].value, tuple.fields[3].value));
        }
    }
    None
}

// Whether a tuple is an announcement of a process.
#[tactic(auto, unfolding(crate::specs::Announcements::announces))]
fn announces(process: u64, tuple: Tuple) -> bool
    ensures { result ≡ announces· process tuple }
{
    tuple.fields[1].value == process && is_announcement(tuple)
}
