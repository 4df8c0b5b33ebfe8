// The refusals of documents 01 and 02 by name, as include/crout.h has them. Each holds its detail, where it has one.
#![tactic(auto)]

ghost use Rattle.std.specs.Prelude.{◌≡◌};
ghost use Rattle.refusal.specs.Named.{number_of, detail_of};

// 1 to 30, in the documents' order. Positions are counted from 1.
#[derive(Clone, Copy)]
pub enum Refusal {
    Order,
    WorkShort { wanted: u64 },
    LabelRange { position: u64 },
    LabelTurn { position: u64 },
    PivotMissing { pivot: u64 },
    WordsShort { records: u64 },
    WordCount,
    Head,
    Next { record: u64 },
    Kind { record: u64 },
    Open { record: u64 },
    Operand { record: u64 },
    Unfinished,
    Lengths,
    NotFinite { position: u64 },
    Overflow { record: u64 },
    ZeroDivisor { record: u64 },
    FileBytes,
    OutputShort { needed: u64 },
    ListingText { position: u64 },
    Limit,
    NotHeld,
    ListShort,
    Remainder,
    Sides,
    DiagonalMissing { row: u64 },
    Unsettled,
    Different { record: u64 },
    Numbering,
    NotCounted,
}

impl Refusal {
    // The documents' number.
    pub fn number(self) -> u32
        ensures { result ≡ number_of self }
    {
        match self {
            Refusal::Order => 1,
            Refusal::WorkShort { wanted: _ } => 2,
            Refusal::LabelRange { position: _ } => 3,
            Refusal::LabelTurn { position: _ } => 4,
            Refusal::PivotMissing { pivot: _ } => 5,
            Refusal::WordsShort { records: _ } => 6,
            Refusal::WordCount => 7,
            Refusal::Head => 8,
            Refusal::Next { record: _ } => 9,
            Refusal::Kind { record: _ } => 10,
            Refusal::Open { record: _ } => 11,
            Refusal::Operand { record: _ } => 12,
            Refusal::Unfinished => 13,
            Refusal::Lengths => 14,
            Refusal::NotFinite { position: _ } => 15,
            Refusal::Overflow { record: _ } => 16,
            Refusal::ZeroDivisor { record: _ } => 17,
            Refusal::FileBytes => 18,
            Refusal::OutputShort { needed: _ } => 19,
            Refusal::ListingText { position: _ } => 20,
            Refusal::Limit => 21,
            Refusal::NotHeld => 22,
            Refusal::ListShort => 23,
            Refusal::Remainder => 24,
            Refusal::Sides => 25,
            Refusal::DiagonalMissing { row: _ } => 26,
            Refusal::Unsettled => 27,
            Refusal::Different { record: _ } => 28,
            Refusal::Numbering => 29,
            Refusal::NotCounted => 30,
        }
    }

    // Its detail, 0 where it has none.
    pub fn detail(self) -> u64
        ensures { result ≡ detail_of self }
    {
        match self {
            Refusal::WorkShort { wanted } => wanted,
            Refusal::LabelRange { position }
            | Refusal::LabelTurn { position }
            | Refusal::NotFinite { position }
            | Refusal::ListingText { position } => position,
            Refusal::PivotMissing { pivot } => pivot,
            Refusal::WordsShort { records } => records,
            Refusal::Next { record }
            | Refusal::Kind { record }
            | Refusal::Open { record }
            | Refusal::Operand { record }
            | Refusal::Overflow { record }
            | Refusal::ZeroDivisor { record }
            | Refusal::Different { record } => record,
            Refusal::OutputShort { needed } => needed,
            Refusal::DiagonalMissing { row } => row,
            _ => 0,
        }
    }
}
