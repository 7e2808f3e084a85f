// Calls, replies and decisions as lines of standard output, in 01's words.
use process::{Next, Step};
use std::io;
use text::Printer;
use tuple::{CAS, COUNT, Call, DEFINED, FORMAL, Field, INP, OFFSET, OUT, RDP, Reply, Tuple};

// No field and no reply is longer.
const LONGEST: usize = 64;

// ---- lines

// The first line of a case: its name, n and t, and how many choices there are, if there are some.
pub(crate) fn title(rt: &impl Print, name: &str, n: u64, t: u64, k: u64) -> io::Result<()> {
    if k == 0 {
        println!(rt; "{name} {n} {t}")
    } else {
        println!(rt; "{name} {n} {t} {k}")
    }
}

// Who calls, what, and the reply. An out has a blank template, and an rdp a blank entry.
pub(crate) fn call_line(rt: &impl Print, call: Call, reply: Reply) -> io::Result<()> {
    print!(rt; "{} {}", call.process, name(call.code))?;
    fields(rt, call.template)?;
    if call.code == CAS {
        print!(rt; ",")?;
    }
    fields(rt, call.entry)?;
    print!(rt; ":")?;
    let mut text = [0u8; LONGEST];
    let mut printer = Printer::new(&mut text);
    printer.put_reply(reply);
    let end = printer.place();
    write(rt, &text, end)?;
    println!(rt)
}

// The decision that a reply led to, if there is one.
pub(crate) fn decision_line(rt: &impl Print, step: &Step) -> io::Result<()> {
    let Next::Decides(decided) = step.next else {
        return Ok(());
    };
    let Ok(code) = decided.encode() else {
        return Ok(());
    };
    print!(rt; "{} decides", step.process.process)?;
    for (kind, value) in [(COUNT, step.process.round), (OFFSET, code)] {
        field(
            rt,
            Field {
                kind,
                state: DEFINED,
                value,
            },
        )?;
    }
    println!(rt)
}

// ---- parts of a line

// What was put before an end.
fn write(rt: &impl Print, text: &[u8], end: usize) -> io::Result<()> {
    match text.get(..end) {
        Some(put) => rt.write_all(put),
        None => Ok(()),
    }
}

fn name(code: u32) -> &'static str {
    match code {
        OUT => "out",
        RDP => "rdp",
        INP => "inp",
        CAS => "cas",
        _ => "",
    }
}

fn fields(rt: &impl Print, tuple: Tuple) -> io::Result<()> {
    for one in tuple.fields.iter().take(tuple.count) {
        field(rt, *one)?;
    }
    Ok(())
}

// A formal field has ? behind the letter of its kind, and a wildcard *.
fn field(rt: &impl Print, field: Field) -> io::Result<()> {
    let mut text = [0u8; LONGEST];
    let mut printer = Printer::new(&mut text);
    printer.put_field(field);
    let whole = printer.place();
    let (end, sign) = match field.state {
        DEFINED => (whole, ""),
        FORMAL => (2, "?"),
        _ => (2, "*"),
    };
    write(rt, &text, end)?;
    print!(rt; "{sign}")
}
