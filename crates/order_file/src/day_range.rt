// A production period of working days: the type carries the limits.
ghost use Rattle.std.specs.Prelude.{◌≤◌};
ghost use Rattle.figures.specs.Limits.{last_working_day};

use crate::operands::Checked;
use figures::LAST_DAY;

#[derive(Clone, Copy, PartialEq, Eq, Debug)]
pub struct DayRange {
    pub first: u32,
    pub last: u32,
    ghost rising: { first ≤ last },
    ghost within: { last ≤ last_working_day },
}

impl Checked for DayRange {
    ghost use Rattle.order_file.specs.Checked.{day_ends};
    ghost use Rattle.order_file.specs.Operands.{days_lawful};

    type Plain = (u32, u32);

    ghost lawful = { λ ends. days_lawful ends.0 ends.1 };

    ghost plain = { day_ends };

    fn checked((first, last): (u32, u32)) -> Option<DayRange> {
        if first <= last && last <= LAST_DAY {
            Some(DayRange { first, last })
        } else {
            None
        }
    }
}
