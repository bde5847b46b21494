// The order of labels, and the halving of what it parts.
ghost use Rattle.std.specs.Prelude.{◌≡◌, ℕ, Bool, ◌+◌, ◌≤◌, ◌<◌, length, take, drop};
ghost use Rattle.octets.specs.Strings.{before};
ghost use Rattle.rows.specs.Sizes.{label_bytes};
ghost use Rattle.rows.specs.Search.{Falls, Halved};

use crate::LABEL;
use octets::number_at;

// A label is two numbers of eight bytes.
const HALF: usize = LABEL / 2;

// Whether the label at a place of one string comes before the label at a place of another.
pub fn is_label_before(s: &[u8], at: usize, t: &[u8], from: usize) -> bool
    requires { (at + label_bytes ≤ length s.now) × (from + label_bytes ≤ length t.now) }
    ensures { result ≡ before (take label_bytes (drop at s.now)) (take label_bytes (drop from t.now)) }
{
    let a = number_at(s, at);
    let b = number_at(t, from);
    if a != b {
        return a < b;
    }
    number_at(s, at + HALF) < number_at(t, from + HALF)
}

// How many of the numbers below `count` pass a test that the first ones pass and none after these does: by halves.
pub fn parted<F: Fn(usize) -> bool>(count: usize, is_smaller: F) -> usize
    requires { (i : ℕ) → i < count → F.pre is_smaller i }
    ensures { (test : ℕ → Bool) → ((i : ℕ) (b : Bool) → i < count → F.post is_smaller i b → b ≡ test i) → Falls test count → Halved test count result }
{
    let mut low = 0;
    let mut high = count;
    // This `while` stays: each half moves one of the two ends, which no iterator does.
    while low < high {
        let middle = low + (high - low) / 2;
        if is_smaller(middle) {
            low = middle + 1;
        } else {
            high = middle;
        }
    }
    low
}
