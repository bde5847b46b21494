// Racks.
ghost use Rattle.std.specs.Prelude.{◌≡◌};
ghost use Rattle.interface.specs.Contents.{keys_of, places_of};
ghost use Rattle.interface.specs.Calls.{reading_rack, writing_rack};

use crate::reading::number_of;
use crate::{Key, Rack, RackRead};
use rack::{KEY_BYTES, Keys, MOST};
use refusals::Written;

// This and the next stay functions: between arrays there is no `From` of this crate's own. They stay loops: by `map` a rack is read or written in 1.6 to 2.8 times the time.
fn keys_of(places: [Key; MOST]) -> Keys
    ensures { result ≡ keys_of places }
{
    let mut keys = [[0u8; KEY_BYTES]; MOST];
    for (i, key) in places.iter().enumerate() {
        keys[i] = key.bytes;
    }
    keys
}

fn places_of(keys: Keys) -> [Key; MOST]
    ensures { result ≡ places_of keys }
{
    let none = Key {
        bytes: [0u8; KEY_BYTES],
    };
    let mut places = [none; MOST];
    for (i, bytes) in keys.iter().enumerate() {
        places[i] = Key { bytes: *bytes };
    }
    places
}

// Takes a rack apart.
#[unsafe(no_mangle)]
pub extern "C" fn mahqurith_read_rack(bytes: &[u8]) -> RackRead
    ensures { result ≡ reading_rack bytes.now }
{
    let mut keys = [[0u8; KEY_BYTES]; MOST];
    let read = rack::read_rack(bytes, &mut keys);
    let keys = places_of(keys);
    RackRead {
        number: number_of(read),
        rack: Rack {
            count: read.unwrap_or(0),
            keys,
        },
    }
}

// Writes a rack as the first bytes of an area.
#[unsafe(no_mangle)]
pub extern "C" fn mahqurith_write_rack(rack: Rack, area: &mut [u8]) -> Written
    ensures { record { answer = result.number; count = result.written; area = area.new } ≡ writing_rack rack area.old }
{
    Written::from(rack::write_rack(rack.count, keys_of(rack.keys), area))
}
