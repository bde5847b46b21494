// A label in hex.
ghost use Rattle.std.specs.Prelude.{◌≡◌, ◌<◌};
ghost use Rattle.io.specs.Digits.{hex_digit_ascii};
ghost use Rattle.report.specs.Text.{hex_of};

use rows::LABEL;

// A digit below 16.
fn digit(d: u8) -> u8
    requires { d < 16 }
    ensures { result ≡ hex_digit_ascii d }
{
    if d < 10 { 48 + d } else { 87 + d }
}

// A label in lower-case hex.
pub fn hex_text(label: [u8; LABEL]) -> [u8; 2 * LABEL]
    ensures { result ≡ hex_of label }
{
    let mut text = [0u8; 2 * LABEL];
    for (i, b) in label.iter().enumerate() {
        text[2 * i] = digit(*b / 16);
        text[2 * i + 1] = digit(*b % 16);
    }
    text
}
