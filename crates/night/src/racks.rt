// The nearest rack: read from its block, and what a receipt is under it.
ghost use Rattle.std.specs.Prelude.{◌≡◌, true, ◌≤◌};
ghost use Rattle.octets.specs.Layouts.{holds};
ghost use Rattle.rack.specs.Racks as racks;
ghost use Rattle.statement.specs.Kinds.{reading_size};
ghost use Rattle.receipts.specs.Block.{key_count, length_in, count_in};
ghost use Rattle.receipts.specs.Judged.{finding};
ghost use Rattle.night.specs.Pass.{nearest_rack, rack_read};

use crate::Nearest;
use checks::BLOCK;
use desk::{Digested, Finding};
use octets::array_at;
use rack::{KEY_BYTES, rack_digest};
use receipts::{RACK_PLACE, judged};

impl Nearest {
    // The rack of a rack's block; its digest is taken here, once.
    #[tactic(auto, unfolding(crate::specs::Pass::rack_read))]
    pub fn read(b: &[u8; BLOCK]) -> Nearest
        requires { key_count b.now ≤ racks.most }
        ensures { result ≡ rack_read b.now }
    {
        let size = 1 + KEY_BYTES * usize::from(b[RACK_PLACE]);
        let rack = array_at(b, RACK_PLACE);
        let digest = rack_digest(&b[RACK_PLACE..RACK_PLACE + size]);
        Nearest { rack, size, digest }
    }

    // The desk's finding of a receipt under the nearest rack.
    pub fn finding(&self, b: &[u8; BLOCK]) -> Finding
        requires counts { (length_in b.now ≤ reading_size) × (count_in b.now ≤ racks.most) }
        requires room { self.now.size ≤ racks.rack_bytes racks.most }
        requires digest_value { holds racks.rack_layout (nearest_rack self.now) ≡ true → self.now.digest ≡ racks.rack_digest (nearest_rack self.now) }
        ensures { result ≡ finding (nearest_rack self.now) b.now }
    {
        let digest = self.digest;
        let rack = &self.rack[..self.size];
        judged(Digested { rack, digest }, b)
    }
}
