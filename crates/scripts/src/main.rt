// Runs the scripts of the list in data/, then each cut of a record, then scripts of the greatest lengths, and prints the text of each.
#![tactic(auto)]

mod case;
mod hex;
mod made;
mod show;

use std::io;

fn main(rt: HostRuntime) -> io::Result<()> {
    case::listed(&rt)?;
    case::cuts(&rt)?;
    made::unread(&rt)?;
    made::full(&rt)?;
    made::longest(&rt)
}
