// The worked script and the unstarred edge values of document 01, a weak round of document 02, and spaces handed in, made as calls, one labelled
// line each.
#![tactic(auto)]

mod asking;
mod cases;
mod lines;
mod making;
mod tuples;

use std::io;

fn main(rt: HostRuntime) -> io::Result<()> {
    cases::script(&rt)?;
    cases::limits(&rt)?;
    cases::bottom(&rt)?;
    cases::two_offsets(&rt)?;
    cases::weak_bottom(&rt)?;
    cases::capacity(&rt)?;
    cases::not_well_formed(&rt)?;
    cases::slips(&rt)?;
    asking::questions(&rt)
}
