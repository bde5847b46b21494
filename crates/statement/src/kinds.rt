// The kinds' numbers, the bytes of each, and where the fields stand.
ghost use Rattle.std.specs.Prelude.{◌≡◌};
ghost use Rattle.statement.specs.Kinds.{kind_number, size};

use crate::Kind;

// The kinds' numbers. They stay: a statement's first byte is one, and so is the kind that C hands over.
pub const NEW: u8 = 1;

pub const APPEND: u8 = 2;

pub const READ: u8 = 3;

pub const FINALISE: u8 = 4;

pub const INITIALISE: u8 = 5;

// The bytes of a statement: of a new or append, a read, and a finalise or initialise one.
pub const RECEIPT_SIZE: usize = 121;

pub const READING_SIZE: usize = 137;

pub const HANDOVER_SIZE: usize = 129;

// The bytes of an identity, a tail or a digest, of a label, and of a number.
pub const DIGEST: usize = rows::TAIL;

pub const LABEL: usize = rows::LABEL;

pub const NUMBER: usize = rows::HEIGHT;

// Where the fields stand: the identity, then three digests, or one and the label, tail, height and nonce.
pub const IDENTITY_PLACE: usize = 1;

pub const FIRST_PLACE: usize = IDENTITY_PLACE + DIGEST;

pub const SECOND_PLACE: usize = FIRST_PLACE + DIGEST;

pub const THIRD_PLACE: usize = SECOND_PLACE + DIGEST;

pub const LABEL_PLACE: usize = FIRST_PLACE + DIGEST;

pub const TAIL_PLACE: usize = LABEL_PLACE + LABEL;

pub const HEIGHT_PLACE: usize = TAIL_PLACE + DIGEST;

pub const NONCE_PLACE: usize = HEIGHT_PLACE + NUMBER;

pub const NONCE_HALF: usize = NONCE_PLACE + NUMBER;

impl Kind {
    // Its number; 0 for no statement.
    pub fn number(self) -> u8
        ensures { result ≡ kind_number self }
    {
        match self {
            Kind::Blank => 0,
            Kind::New => NEW,
            Kind::Append { .. } => APPEND,
            Kind::Read { .. } => READ,
            Kind::Finalise => FINALISE,
            Kind::Initialise => INITIALISE,
        }
    }

    // The bytes of a statement of it; 0 for no statement.
    pub fn size(self) -> usize
        ensures { result ≡ size self }
    {
        match self {
            Kind::Blank => 0,
            Kind::New | Kind::Append { .. } => RECEIPT_SIZE,
            Kind::Read { .. } => READING_SIZE,
            Kind::Finalise | Kind::Initialise => HANDOVER_SIZE,
        }
    }
}
