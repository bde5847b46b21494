// The maker of handover bundles.
ghost use Rattle.std.specs.Prelude.{◌≡◌};
ghost use Rattle.maker.specs.Making.{composing};

use maker::Made;

// Writes the new roll in blocks and the bundle, or refuses and changes nothing.
#[unsafe(no_mangle)]
pub extern "C" fn mahqurith_make_bundle(
    previous: &[u8],
    own: &[u8],
    entries: &[u8],
    store: &[u8],
    roll: &mut [u8],
    bundle: &mut [u8],
) -> Made
    ensures { record { number = result.number; roll = result.roll; bundle = result.bundle; roll_area = roll.new; bundle_area = bundle.new }
        ≡ composing previous.now own.now entries.now store.now roll.old bundle.old }
{
    composing::mahqurith_make_bundle(previous, own, entries, store, roll, bundle)
}
