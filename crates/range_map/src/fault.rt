// Why a call is refused, by number and with what the refusal returns.
ghost use Rattle.std.specs.Prelude.{◌≡◌};
ghost use Rattle.range_map.specs.Replies.{number_of, returned_of};

use figures::Table;

#[derive(Clone, Copy, PartialEq, Eq, Debug)]
pub enum MapFault {
    BadRange,
    Taken { first: u64 },
    Full { table: Table },
    Uncovered { first: u64 },
}

#[derive(Clone, Copy, PartialEq, Eq, Debug)]
pub enum Returned {
    Position(u64),
    InTable(Table),
}

impl MapFault {
    // Methods and no `From`: a fault gives a number and what it returns, and the names say which.
    pub fn number(self) -> u8
        ensures as_numbered { result ≡ number_of self }
    {
        match self {
            MapFault::BadRange => 3,
            MapFault::Taken { .. } => 10,
            MapFault::Full { .. } => 12,
            MapFault::Uncovered { .. } => 13,
        }
    }

    pub fn returned(self) -> Returned
        ensures as_returned { result ≡ returned_of self }
    {
        match self {
            MapFault::BadRange => Returned::Position(0),
            MapFault::Taken { first } => Returned::Position(first),
            MapFault::Full { table } => Returned::InTable(table),
            MapFault::Uncovered { first } => Returned::Position(first),
        }
    }
}
