// The call for C.
ghost use Rattle.std.specs.Prelude.{◌≡◌};
ghost use Rattle.refusals.specs.Order.{first};
ghost use Rattle.refusals.specs.Refused.{answer_of};
ghost use Rattle.maker.specs.Making.{entries_tests, composing};
ghost use Rattle.composing.specs.Results.{made_of};

use crate::lists::put_bundle;
use crate::rows_made::put_rows;
use crate::sizes::whole_size;
use bundle::{LONGEST, is_bundle};
use entries::{check_attended, rolls_hold};
use listing::all_led;
use maker::Made;
use rack::is_rack;
use refusals::Refusal;
use roll::{put_roll, roll_bytes};
use rows::{MOST, TABLE};
use store::is_area;

// Tests what is asked before the rolls are compared.
fn check_entries(previous: &[u8], own: &[u8], e: &[u8], store: &[u8]) -> Result<(), Refusal>
    ensures { answer_of result ≡ first (entries_tests previous.now own.now e.now store.now) }
{
    if !is_area(store) {
        return Err(Refusal::RecordNotSound);
    }
    if !is_rack(previous) {
        return Err(Refusal::RackBroken);
    }
    if !is_rack(own) {
        return Err(Refusal::RackBroken);
    }
    if !is_bundle(e, previous[0] as usize, own[0] as usize, 0) {
        return Err(Refusal::ListBroken);
    }
    if !rolls_hold(e) {
        return Err(Refusal::RollBroken);
    }
    check_attended(previous, own, e)
}

// Writes the new roll in blocks and the bundle, or refuses and changes nothing.
fn make(
    previous: &[u8],
    own: &[u8],
    entries: &[u8],
    store: &[u8],
    roll: &mut [u8],
    bundle: &mut [u8],
) -> Result<Made, Refusal>
    ensures { record { number = (made_of result).number; roll = (made_of result).roll; bundle = (made_of result).bundle; roll_area = roll.new; bundle_area = bundle.new }
        ≡ composing previous.now own.now entries.now store.now roll.old bundle.old }
{
    check_entries(previous, own, entries, store)?;
    if !all_led(entries, store) {
        return Err(Refusal::NotLeading);
    }
    let mut table = [0u8; TABLE];
    let count = put_rows(entries, &mut table);
    if MOST < count {
        return Err(Refusal::BundleTooLarge);
    }
    let size = whole_size(entries, &table, count);
    if LONGEST < size {
        return Err(Refusal::BundleTooLarge);
    }
    let n = roll_bytes(count as u8);
    if roll.len() < n || bundle.len() < size {
        return Err(Refusal::AreaTooShort);
    }
    put_roll(count as u8, &table, roll);
    put_bundle(entries, store, &table, count, bundle);
    Ok(Made {
        number: refusals::ACCEPTED,
        roll: n,
        bundle: size,
    })
}

// The roll and the bundle made; a refusal has its number and no bytes.
#[unsafe(no_mangle)]
pub extern "C" fn mahqurith_make_bundle(
    previous: &[u8],
    own: &[u8],
    entries: &[u8],
    store: &[u8],
    roll: &mut [u8],
    bundle: &mut [u8],
) -> Made
    ensures { record { number = result.number; roll = result.roll; bundle = result.bundle; roll_area = roll.new; bundle_area = bundle.new }
        ≡ composing previous.now own.now entries.now store.now roll.old bundle.old }
{
    match make(previous, own, entries, store, roll, bundle) {
        Ok(made) => made,
        Err(refusal) => Made::from(refusal),
    }
}
