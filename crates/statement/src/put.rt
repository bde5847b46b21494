// A statement put in front of an area.
ghost use Rattle.std.specs.Prelude.{◌≡◌, ◌++◌, ◌+◌, ◌≤◌, length};
ghost use Rattle.octets.specs.Strings.{put};
ghost use Rattle.statement.specs.Kinds.{first_place};
ghost use Rattle.statement.specs.Contents.{receipt, body, statement_written};

use crate::kinds::{FIRST_PLACE, HEIGHT_PLACE, IDENTITY_PLACE, NONCE_HALF, NONCE_PLACE};
use crate::{Kind, Statement};
use octets::{copy_at, put_number};

// Three fields after the identity.
#[tactic(auto, using(crate::proofs::Fields::three_puts))]
fn put_three(area: &mut [u8], a: &[u8], b: &[u8], c: &[u8])
    requires { first_place + length a.now + length b.now + length c.now ≤ length area.old }
    ensures { area.new ≡ put area.old first_place (a.now ++ b.now ++ c.now) }
{
    copy_at(area, FIRST_PLACE, a);
    copy_at(area, FIRST_PLACE + a.len(), b);
    copy_at(area, FIRST_PLACE + a.len() + b.len(), c);
}

impl Statement {
    // What follows the identity of a new or append statement, and begins a read one.
    #[tactic(auto, using(crate::proofs::Types::arrays, crate::proofs::Puts::receipt_end, crate::proofs::Puts::receipt_puts))]
    fn put_receipt(self, height: u64, area: &mut [u8])
        requires { first_place + length (receipt self height) ≤ length area.old }
        ensures { area.new ≡ put area.old first_place (receipt self height) }
    {
        put_three(area, &self.own, &self.label, &self.tail);
        put_number(area, HEIGHT_PLACE, height);
    }

    // What follows the identity of a read statement.
    #[tactic(auto, using(crate::proofs::Types::arrays, crate::proofs::Puts::receipt_end, crate::proofs::Puts::read_end, crate::proofs::Puts::read_puts))]
    fn put_read(self, height: u64, high: u64, low: u64, area: &mut [u8])
        requires { first_place + length (body self (Kind.Read height high low)) ≤ length area.old }
        ensures { area.new ≡ put area.old first_place (body self (Kind.Read height high low)) }
    {
        self.put_receipt(height, area);
        put_number(area, NONCE_PLACE, high);
        put_number(area, NONCE_HALF, low);
    }

    // What follows the identity, by the kind.
    #[tactic(auto, using(crate::proofs::Fields::three_lengths, octets::proofs::Fronts::put_none), unfolding(crate::specs::Contents::body))]
    fn put_body(self, area: &mut [u8])
        requires { first_place + length (body self self.kind) ≤ length area.old }
        ensures { area.new ≡ put area.old first_place (body self self.kind) }
    {
        match self.kind {
            Kind::Blank => {}
            Kind::New => self.put_receipt(0, area),
            Kind::Append { height } => self.put_receipt(height, area),
            Kind::Read {
                height,
                nonce_high,
                nonce_low,
            } => self.put_read(height, nonce_high, nonce_low, area),
            Kind::Finalise => put_three(area, &self.own, &self.other, &self.roll),
            Kind::Initialise => put_three(area, &self.other, &self.own, &self.roll),
        }
    }

    // The kind's number, the identity, and what follows them.
    #[tactic(auto, using(crate::proofs::Types::arrays, crate::proofs::Puts::statement_puts), unfolding(crate::specs::Contents::statement_written))]
    pub fn put(self, area: &mut [u8])
        requires { length (statement_written self) ≤ length area.old }
        ensures { area.new ≡ put area.old 0 (statement_written self) }
    {
        area[0] = self.kind.number();
        copy_at(area, IDENTITY_PLACE, &self.identity);
        self.put_body(area);
    }
}
