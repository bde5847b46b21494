// Hexadecimal text: the value of a digit, and the bytes that a run of digits spells.
#![tactic(auto)]

ghost use Rattle.std.specs.Prelude.{◌≡◌, ◌<◌, true, unwrap_or, IfSome};
ghost use Rattle.hexes.specs.Digits.{digitValue, foreign, Spelled};

// The value of a digit in lower case, as the files have them; no other character has one.
fn value(c: u8) -> Option<u8>
    ensures value { unwrap_or result foreign ≡ digitValue c }
    ensures digit { IfSome result (λ v. v < foreign) }
{
    match c {
        b'0'..=b'9' => Some(c - b'0'),
        b'a'..=b'f' => Some(c - b'a' + 10),
        _ => None,
    }
}

// Fills out, and answers whether digits has just two digits for each of its bytes. Where not, out may be filled in part.
pub fn decode(digits: &[u8], out: &mut [u8]) -> bool
    ensures { result ≡ true → Spelled digits.now out.new }
{
    if digits.len() != 2 * out.len() {
        return false;
    }
    for i in 0..out.len() {
        let (Some(high), Some(low)) = (value(digits[2 * i]), value(digits[2 * i + 1])) else {
            return false;
        };
        out[i] = 16 * high + low;
    }
    true
}
