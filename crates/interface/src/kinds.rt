// A flat statement's kind, with its height and nonce, and back.
ghost use Rattle.std.specs.Prelude.{◌≡◌, ◌++◌};
ghost use Rattle.octets.specs.Numbers.{bytes_of};
ghost use Rattle.statement.specs.Kinds.{number_bytes};
ghost use Rattle.interface.specs.Contents.{nonce_in, kind_named, kind_of};

use crate::NONCE;
use octets::{is_same, number_at, put_number};
use statement::{APPEND, FINALISE, INITIALISE, Kind, NEW, NUMBER, READ};

// A nonce of its halves.
fn nonce_of(high: u64, low: u64) -> [u8; NONCE]
    ensures { result ≡ bytes_of number_bytes high ++ bytes_of number_bytes low }
{
    let mut nonce = [0u8; NONCE];
    put_number(&mut nonce, 0, high);
    put_number(&mut nonce, NUMBER, low);
    nonce
}

// The nonce that a kind has; zeros where it has none.
pub fn nonce_in(kind: Kind) -> [u8; NONCE]
    ensures { result ≡ nonce_in kind }
{
    match kind {
        Kind::Read {
            nonce_high,
            nonce_low,
            ..
        } => nonce_of(nonce_high, nonce_low),
        Kind::Blank | Kind::New | Kind::Append { .. } | Kind::Finalise | Kind::Initialise => {
            [0u8; NONCE]
        }
    }
}

// The kind of a number, with a height and a nonce where it has one. It stays no `TryFrom`: a number that names none is Blank, as `kind_named` of specs/ says.
#[tactic(auto, unfolding(crate::specs::Contents::kind_named))]
fn kind_named(number: u8, height: u64, nonce: &[u8; NONCE]) -> Kind
    ensures { result ≡ kind_named number height nonce.now }
{
    match number {
        NEW => Kind::New,
        APPEND => Kind::Append { height },
        READ => Kind::Read {
            height,
            nonce_high: number_at(nonce, 0),
            nonce_low: number_at(nonce, NUMBER),
        },
        FINALISE => Kind::Finalise,
        INITIALISE => Kind::Initialise,
        _ => Kind::Blank,
    }
}

// The kind of a number, if it has this height and this nonce.
#[tactic(auto, unfolding(crate::specs::Contents::kind_of))]
pub fn kind_of(number: u8, height: u64, nonce: &[u8; NONCE]) -> Kind
    ensures { result ≡ kind_of number height nonce.now }
{
    let kind = kind_named(number, height, nonce);
    if desk::height_in(kind) == height && is_same(&nonce_in(kind), nonce) {
        kind
    } else {
        Kind::Blank
    }
}
