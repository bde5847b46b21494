// The report's text as far as it is put: texts and numbers one behind the other.
ghost use Rattle.std.specs.Prelude.{◌≡◌, List, [], ◌++◌, ℕ, ◌+◌, ◌≤◌, length, take};
ghost use Rattle.report.specs.Text.{decimal_of, Placed};
ghost use Rattle.report.specs.Printed.{most_text};

use octets::copy_at;
use std::marker::Model;

// The bytes of the longest report.
const MOST_TEXT: usize = 6200;

// The text, and room behind it.
#[derive(Drop)]
pub struct Page {
    area: [u8; MOST_TEXT],
    at: usize,
}

impl Model for Page {
    ghost Value = { List ℕ };

    ghost view = { λ p. take p.at p.area };

    ghost invariant = { λ p. p.at ≤ most_text };
}

impl Page {
    pub fn new() -> Page
        ensures { result ≡ [] }
    {
        Page {
            area: [0; MOST_TEXT],
            at: 0,
        }
    }

    pub fn put(&mut self, text: &[u8])
        requires { length self.old + length text.now ≤ most_text }
        ensures { self.new ≡ self.old ++ text.now }
    {
        copy_at(&mut self.area, self.at, text);
        self.at += text.len();
    }

    // A number in decimal.
    pub fn put_decimal(&mut self, n: u64)
        requires { length self.old + 20 ≤ most_text }
        ensures { self.new ≡ self.old ++ decimal_of n }
    {
        let mut digits = [0u8; 20];
        let k = io::decimal(n, &mut digits);
        self.put(&digits[..k]);
    }

    // A text, and a number behind it.
    pub fn put_named(&mut self, name: &[u8], n: u64)
        requires { length self.old + length name.now + 20 ≤ most_text }
        ensures { self.new ≡ self.old ++ (name.now ++ decimal_of n) }
    {
        self.put(name);
        self.put_decimal(n);
    }

    // The text at the front of an area; answers how many bytes it has.
    pub fn write(&self, area: &mut [u8]) -> usize
        requires { length self.now ≤ length area.old }
        ensures { Placed result 0 area.old area.new self.now }
    {
        copy_at(area, 0, &self.area[..self.at]);
        self.at
    }
}
