// The two calls on an entry of a bundle.
ghost use Rattle.std.specs.Prelude.{◌≡◌};
ghost use Rattle.marking.specs.Calls.{positioned, marking};

use crate::Position;
use crate::entry::find_entry;
use refusals::{ACCEPTED, Refusal};

// The position in its rack of an entry of a list.
#[tactic(auto, using(crate::proofs::Standing::found_within))]
#[unsafe(no_mangle)]
pub extern "C" fn mahqurith_bundle_position(bundle: &[u8], list: u8, number: u64) -> Position
    ensures { result ≡ positioned bundle.now list number }
{
    match find_entry(bundle, list, number) {
        Some(at) => Position {
            number: ACCEPTED,
            position: bundle[at],
        },
        None => Position {
            number: Refusal::ListBroken.number(),
            position: 0,
        },
    }
}

// Sets the marks of an entry of a list.
#[tactic(auto, using(crate::proofs::Standing::found_within))]
#[unsafe(no_mangle)]
pub extern "C" fn mahqurith_bundle_mark(bundle: &mut [u8], list: u8, number: u64, marks: u8) -> u32
    ensures { record { answer = result; bundle = bundle.new } ≡ marking bundle.old list number marks }
{
    match find_entry(bundle, list, number) {
        Some(at) if marks::is_marks(marks) => {
            bundle[at + 1] = marks;
            ACCEPTED
        }
        _ => Refusal::ListBroken.number(),
    }
}
