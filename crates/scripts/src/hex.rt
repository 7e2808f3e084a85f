// Hexadecimal digits, two to a byte. A # and what follows it in its line is a comment, and so is every other sign.
ghost use Rattle.std.specs.Prelude.{◌≤◌, ◌<◌, length, IfSome};

// The bytes that the digits of source say, put at the start of script while there is room: the part of script that they fill.
pub(crate) fn decode<'a>(source: &[u8], script: &'a mut [u8]) -> &'a [u8]
    ensures { length result.now ≤ length script.old }
{
    let mut n = 0;
    for line in source.split(|sign| *sign == b'\n') {
        let mut high = None;
        for sign in line.iter().take_while(|sign| **sign != b'#') {
            high = match (high, digit(*sign)) {
                (Some(high), Some(low)) => {
                    if let Some(place) = script.get_mut(n) {
                        *place = 16 * high + low;
                        n += 1;
                    }
                    None
                }
                (_, digit) => digit,
            };
        }
    }
    &script[..n]
}

fn digit(sign: u8) -> Option<u8>
    ensures { IfSome result (λ value. value < 16) }
{
    match sign {
        b'0'..=b'9' => Some(sign - b'0'),
        b'A'..=b'F' => Some(sign - b'A' + 10),
        _ => None,
    }
}
