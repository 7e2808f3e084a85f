// Lines of standard output, each with a label.
use std::io;
use text::Printer;
use tuple::{Outcome, Refusal, Reply, Tuple};

// No reply of the cases is longer.
const LONGEST: usize = 32;

// A label and a reply.
pub(crate) fn reply_line(rt: &impl Print, label: &str, reply: Reply) -> io::Result<()> {
    print!(rt; "{label}")?;
    let mut text = [0u8; LONGEST];
    let mut printer = Printer::new(&mut text);
    printer.put_reply(reply);
    let end = printer.place();
    if let Some(said) = text.get(..end) {
        rt.write_all(said)?;
    }
    println!(rt)
}

// A label and a refusal.
pub(crate) fn refusal_line(rt: &impl Print, label: &str, refusal: Refusal) -> io::Result<()> {
    let reply = Reply {
        outcome: Outcome::Refused(refusal),
        tuple: Tuple::blank(),
    };
    reply_line(rt, label, reply)
}
