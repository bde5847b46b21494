// The answers of every call: acceptance, or a refusal with its number in document 01's table or in a request of document 02.
#![tactic(auto)]

mod written;

ghost use Rattle.std.specs.Prelude.{◌≡◌};
ghost use Rattle.refusals.specs.Refused.{refusal_number, refusal_height};

pub use written::Written;

// The answer of an accepted call.
pub const ACCEPTED: u32 = 0;

// Why a call is refused.
#[derive(Clone, Copy)]
pub enum Refusal {
    // Output area shorter than the number above.
    AreaTooShort,
    // Record not sound.
    RecordNotSound,
    // Status is not blank.
    NotBlank,
    // Not active.
    NotActive,
    // Not prepared.
    NotPrepared,
    // Rack breaks the layout.
    RackBroken,
    // Own key not in own rack.
    KeyNotInRack,
    // Roll without previous rack, or the reverse.
    RollOrRackAlone,
    // Ledger exists.
    LedgerExists,
    // No such ledger.
    NoSuchLedger,
    // Out of order; the present height is given.
    OutOfOrder { height: u64 },
    // Height is 4,294,967,295.
    HeightAtTop,
    // 63 ledgers already.
    TableFull,
    // Label all zero.
    LabelZero,
    // Roll breaks the layout.
    RollBroken,
    // Fewer entries than a majority.
    TooFew,
    // Not attested.
    NotAttested,
    // Finalise or receipt signature not valid.
    SignatureNotValid,
    // Initialise signature not valid.
    InitialiseNotValid,
    // Roll not derived.
    NotDerived,
    // Rack digest differs from the record's.
    DigestDiffers,
    // Bundle or signer list breaks the layout.
    ListBroken,
    // Statement is not the one asked for: length, layout, kind, identity, rack digest or label.
    StatementNotAsked,
    // Nonce differs.
    NonceDiffers,
    // Hash input over 65,536 bytes.
    InputTooLong,
    // List of 0 or more than 32.
    ListOfWrongLength,
    // Text over 418 bytes.
    TextTooLong,
    // Every block of the store is used.
    StoreFull,
    // No undamaged block answers, and the store holds a damaged one.
    BlockDamaged,
    // The store's read refuses a needed entry, two highest rows differ, or the digests do not lead to the highest tail.
    NotLeading,
    // The roll passes 63 rows, a count 64 or the bundle its length.
    BundleTooLarge,
    // Rack of two.
    RackOfTwo,
    // Company with 31 rows or more.
    CompanyFull,
}

impl Refusal {
    // Its number.
    pub fn number(self) -> u32
        ensures { result ≡ refusal_number self }
    {
        match self {
            Refusal::AreaTooShort => 1,
            Refusal::RecordNotSound => 2,
            Refusal::NotBlank => 3,
            Refusal::NotActive => 4,
            Refusal::NotPrepared => 5,
            Refusal::RackBroken => 6,
            Refusal::KeyNotInRack => 7,
            Refusal::RollOrRackAlone => 8,
            Refusal::LedgerExists => 9,
            Refusal::NoSuchLedger => 10,
            Refusal::OutOfOrder { height: _ } => 11,
            Refusal::HeightAtTop => 12,
            Refusal::TableFull => 13,
            Refusal::LabelZero => 14,
            Refusal::RollBroken => 15,
            Refusal::TooFew => 16,
            Refusal::NotAttested => 17,
            Refusal::SignatureNotValid => 18,
            Refusal::InitialiseNotValid => 19,
            Refusal::NotDerived => 20,
            Refusal::DigestDiffers => 21,
            Refusal::ListBroken => 22,
            Refusal::StatementNotAsked => 23,
            Refusal::NonceDiffers => 24,
            Refusal::InputTooLong => 25,
            Refusal::ListOfWrongLength => 32,
            Refusal::TextTooLong => 33,
            Refusal::StoreFull => 34,
            Refusal::BlockDamaged => 35,
            Refusal::NotLeading => 36,
            Refusal::BundleTooLarge => 37,
            Refusal::RackOfTwo => 38,
            Refusal::CompanyFull => 39,
        }
    }

    // The height that it gives; 0 where it gives none.
    pub fn height(self) -> u64
        ensures { result ≡ refusal_height self }
    {
        match self {
            Refusal::OutOfOrder { height } => height,
            _ => 0,
        }
    }
}
