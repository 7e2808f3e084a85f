// One number for a length, or a record's number, or a refusal. They are functions: `From` between an enum of another crate and a number may not stand
// here.
ghost use Rattle.std.specs.Prelude.{◌≡◌, ◌+◌};
ghost use Rattle.board_c.specs.Flat.{refused_base, length_number, stray_number};
ghost use Rattle.tuple.specs.Refusals.{number_of};

use tuple::Refusal;

// No length reaches this number; it and a refusal's number stand for the refusal.
const REFUSED: u64 = 4_294_967_296;

pub(crate) fn length_number(length: Result<usize, Refusal>) -> u64
    ensures { result ≡ length_number length }
{
    match length {
        Ok(n) => n as u64,
        Err(refusal) => refused_number(refusal),
    }
}

pub(crate) fn stray_number(stray: Result<Option<u64>, Refusal>) -> u64
    ensures { result ≡ stray_number stray }
{
    match stray {
        Ok(None) => 0,
        Ok(Some(number)) => number,
        Err(refusal) => refused_number(refusal),
    }
}

fn refused_number(refusal: Refusal) -> u64
    ensures { result ≡ refused_base + number_of refusal }
{
    REFUSED + u64::from(refusal.number())
}
