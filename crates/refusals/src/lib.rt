// Why a call is refused: document 01's refusals and those of document 02, each under its number.
#![tactic(auto)]

ghost use Rattle.std.specs.Prelude.{◌≡◌};
ghost use Rattle.refusals.specs.Refusals.{number};

// The first of those that hold, in the order that document 01 gives for the call.
#[derive(Clone, Copy, Debug, PartialEq, Eq)]
pub enum Refusal {
    Channels,
    Capacity,
    CachedShare,
    InitialShare,
    IndexAbove,
    CoordinateCount,
    BadCoordinate,
    IndexIsLeaf,
    NeverWritten,
    Full,
    FewWords,
    TreeEmpty,
    NotHeld,
    BadWeight,
    FewRows,
    NoSuchNode,
    OutOfForm,
    KeyLength,
    PastStream,
}

impl Refusal {
    // Its number in the documents.
    // Rules out a number counted from the first on, which parts from the documents' after 17, and the number of the refusal beside it.
    pub fn number(self) -> usize
        ensures { result ≡ number self }
    {
        match self {
            Refusal::Channels => 1,
            Refusal::Capacity => 2,
            Refusal::CachedShare => 3,
            Refusal::InitialShare => 4,
            Refusal::IndexAbove => 5,
            Refusal::CoordinateCount => 6,
            Refusal::BadCoordinate => 7,
            Refusal::IndexIsLeaf => 8,
            Refusal::NeverWritten => 9,
            Refusal::Full => 10,
            Refusal::FewWords => 11,
            Refusal::TreeEmpty => 12,
            Refusal::NotHeld => 13,
            Refusal::BadWeight => 14,
            Refusal::FewRows => 15,
            Refusal::NoSuchNode => 16,
            Refusal::OutOfForm => 17,
            Refusal::KeyLength => 21,
            Refusal::PastStream => 22,
        }
    }
}
