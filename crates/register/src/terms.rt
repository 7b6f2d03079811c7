// When certificates are past their term.
ghost use Rattle.std.specs.Prelude.{◌≡◌};
ghost use Rattle.range_map.specs.Map.{in_use};
ghost use Rattle.range_map.specs.Placed.{payload_found};
ghost use Rattle.register.specs.Holdings.{entry_lapsed};
ghost use Rattle.register.specs.Terms.{overdue as overdue_by};

use crate::rows::{Origin, Standing};
use calendar::last_valid_day;
use range_map::{Entry, RangeMap};

// A date, and the origins by which it is told what is past its term then. Neither compared nor printed,
// since it holds a reference to a map.
#[derive(Clone, Copy)]
pub(crate) struct Today<'a, 'b> {
    pub(crate) date: u32,
    pub(crate) origins: &'a RangeMap<'b, Origin>,
}

impl Today<'_, '_> {
    // The last valid day of a number that is past its term; one without an origin is in term.
    pub(crate) fn overdue(self, number: u64) -> Option<u32>
        ensures overdue { result ≡ overdue_by self.entry.date (payload_found number (in_use self.entry.origins.now)) }
    {
        let origin = self.origins.get(number)?;
        Some(last_valid_day(origin.last_day)).filter(|last_valid| *last_valid < self.date)
    }

    // An entry's term is that of its first number.
    pub(crate) fn lapses(self, entry: Entry<Standing>) -> bool
        ensures lapsed { result ≡ entry_lapsed self.entry.date (in_use self.entry.origins.now) entry }
    {
        self.overdue(entry.first).is_some()
    }
}
