// A year that a cancellation may name.
ghost use Rattle.std.specs.Prelude.{◌≤◌};
ghost use Rattle.figures.specs.Limits.{first_year, last_year};

use crate::operands::Checked;
use figures::{FIRST_YEAR, LAST_YEAR};

#[derive(Clone, Copy, PartialEq, Eq, Debug)]
pub struct Year {
    pub year: u16,
    ghost from_first: { first_year ≤ year },
    ghost to_last: { year ≤ last_year },
}

impl Checked for Year {
    ghost use Rattle.order_file.specs.Operands.{year_lawful};

    type Plain = u16;

    ghost lawful = { year_lawful };

    ghost plain = { λ year. year.year };

    fn checked(year: u16) -> Option<Year> {
        // An if and no then_some: the literal owes its limits, which the branch knows.
        if (FIRST_YEAR..=LAST_YEAR).contains(&year) {
            Some(Year { year })
        } else {
            None
        }
    }
}
