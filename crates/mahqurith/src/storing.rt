// The cabinet store's append and read.
ghost use Rattle.std.specs.Prelude.{◌≡◌};
ghost use Rattle.store.specs.Append.{appending};
ghost use Rattle.store.specs.Read.{reading};

use store::{Answer, Place};

// Appends a text at the height that the label has next.
#[unsafe(no_mangle)]
pub extern "C" fn mahqurith_store_append(area: &mut [u8], asked: Place, text: &[u8]) -> Answer
    ensures { record { number = result.number; written = result.written; height = result.height; area = area.new }
        ≡ appending area.old asked.label asked.height text.now }
{
    store::mahqurith_store_append(area, asked, text)
}

// Copies out the block of a label and a height.
#[unsafe(no_mangle)]
pub extern "C" fn mahqurith_store_read(area: &[u8], asked: Place, output: &mut [u8]) -> Answer
    ensures { record { number = result.number; written = result.written; height = result.height; output = output.new }
        ≡ reading area.now asked.label asked.height output.old }
{
    store::mahqurith_store_read(area, asked, output)
}
