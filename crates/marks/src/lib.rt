// The marks byte: what the key chip found of a key and of its signature.
#![tactic(auto)]

mod entries;

ghost use Rattle.std.specs.Prelude.{◌≡◌};
ghost use Rattle.marks.specs.{attested, valid, marks_fit};

pub use entries::{
    answer_with, check_all, check_marks, entries_fit, entry_fits, mark_refusal, unmarked,
};

// Whether the chip attested the key.
pub fn is_attested(marks: u8) -> bool
    ensures { result ≡ attested marks }
{
    marks % 2 == 1
}

// Whether the chip found the signature valid.
pub fn is_valid(marks: u8) -> bool
    ensures { result ≡ valid marks }
{
    marks / 2 % 2 == 1
}

// Whether the bits that say nothing are zero.
pub fn is_marks(marks: u8) -> bool
    ensures { result ≡ marks_fit marks }
{
    marks / 4 == 0
}
