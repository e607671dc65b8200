// Why a file, a line, an edit or a buffer is refused.
ghost use Rattle.std.specs.Prelude.{◌≡◌};
ghost use Rattle.program.specs.Refusals.{number, pair_told, pair_in, Refuses};

use rows::{FaultyPair, TableFault};

// The rows of the table of refusals, in its order.
#[derive(Clone, Copy, Debug, PartialEq, Eq)]
pub enum Refusal {
    BadLine,
    UnknownKind,
    WrongCount,
    OutOfOrder,
    OutOfRange,
    TableFull,
    EndCount,
    FileEnd,
    MarksLength,
    OutputShort,
    WorkLength,
    EditLine,
    EditRange,
    NoSuchEdge,
    EdgeExists,
    EdgesFull,
    ForeignMarks,
    InputTooLong,
    PairNotMet(FaultyPair),
    PairMetTwice(FaultyPair),
    ExchangeOrder,
    GaveUp,
    TooLarge,
    TooLargeToSave,
    ForeignSaved,
}

impl Refusal {
    // Its number in the table of refusals.
    pub fn number(self) -> u8
        ensures { result ≡ number self }
    {
        match self {
            Refusal::BadLine => 1,
            Refusal::UnknownKind => 2,
            Refusal::WrongCount => 3,
            Refusal::OutOfOrder => 4,
            Refusal::OutOfRange => 5,
            Refusal::TableFull => 6,
            Refusal::EndCount => 7,
            Refusal::FileEnd => 8,
            Refusal::MarksLength => 9,
            Refusal::OutputShort => 10,
            Refusal::WorkLength => 11,
            Refusal::EditLine => 12,
            Refusal::EditRange => 13,
            Refusal::NoSuchEdge => 14,
            Refusal::EdgeExists => 15,
            Refusal::EdgesFull => 16,
            Refusal::ForeignMarks => 17,
            Refusal::InputTooLong => 18,
            Refusal::PairNotMet(_) => 19,
            Refusal::PairMetTwice(_) => 20,
            Refusal::ExchangeOrder => 21,
            Refusal::GaveUp => 22,
            Refusal::TooLarge => 23,
            Refusal::TooLargeToSave => 24,
            Refusal::ForeignSaved => 25,
        }
    }

    // The pair that a table is refused for; no other refusal has one.
    pub fn pair(self) -> Option<FaultyPair>
        ensures { pair_told result ≡ pair_in self }
    {
        match self {
            Refusal::PairNotMet(pair) | Refusal::PairMetTwice(pair) => Some(pair),
            _ => None,
        }
    }
}

// A refusal, and the number of the file's line that meets it: 0 where it is no line's.
#[derive(Clone, Copy, Debug, PartialEq, Eq)]
pub struct RefusedAt {
    pub refusal: Refusal,
    pub line: usize,
}

// What is refused for no line of its own has line 0.
impl From<Refusal> for RefusedAt {
    ghost from_gives = { λ refusal e. e ≡ record { refusal = refusal; line = 0 } };

    fn from(refusal: Refusal) -> RefusedAt {
        RefusedAt { refusal, line: 0 }
    }
}

// A table is refused for its first faulty pair.
impl From<TableFault> for RefusedAt {
    ghost from_gives = { Refuses };

    fn from(fault: TableFault) -> RefusedAt {
        match fault {
            TableFault::NotMet(pair) => Refusal::PairNotMet(pair).into(),
            TableFault::MetTwice(pair) => Refusal::PairMetTwice(pair).into(),
        }
    }
}
