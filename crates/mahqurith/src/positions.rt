// The two calls on an entry of a bundle.
ghost use Rattle.std.specs.Prelude.{◌≡◌};
ghost use Rattle.marking.specs.Calls.{positioned, marking};

use marking::Position;

// The position in its rack of an entry of a list.
#[unsafe(no_mangle)]
pub extern "C" fn mahqurith_bundle_position(bundle: &[u8], list: u8, number: u64) -> Position
    ensures { result ≡ positioned bundle.now list number }
{
    marking::mahqurith_bundle_position(bundle, list, number)
}

// Sets the marks of an entry of a list.
#[unsafe(no_mangle)]
pub extern "C" fn mahqurith_bundle_mark(bundle: &mut [u8], list: u8, number: u64, marks: u8) -> u32
    ensures { record { answer = result; bundle = bundle.new } ≡ marking bundle.old list number marks }
{
    marking::mahqurith_bundle_mark(bundle, list, number, marks)
}
