// The checks of a call, in their order, on the entries in use.
ghost use Rattle.std.specs.Prelude.{◌≡◌, ◌≤◌, length};
ghost use Rattle.range_map.specs.Plain.{bad};
ghost use Rattle.range_map.specs.Replies.{plain_change, plain_lay};

use super::entry::{Payload, Span};
use super::fault::MapFault;
use super::rising::RisingEntries;

// Positions run from 0 to LIMIT - 1.
const LIMIT: u64 = 1 << 62;

fn is_bad(range: Span) -> bool
    ensures { result ≡ bad range.first range.last }
{
    range.first > range.last || range.last >= LIMIT
}

impl<'a, P: Payload> RisingEntries<'a, P> {
    pub(crate) fn judge_lay(&self, slots: usize, range: Span) -> Result<(), MapFault>
        ensures { result ≡ plain_lay P.TABLE slots range.first range.last self.now.entries.now }
    {
        if is_bad(range) {
            return Err(MapFault::BadRange);
        }
        if let Some(first) = self.first_taken(range) {
            return Err(MapFault::Taken { first });
        }
        if self.entries.len() >= slots {
            return Err(MapFault::Full { table: P::TABLE });
        }
        Ok(())
    }

    pub(crate) fn judge_change(&self, slots: usize, range: Span) -> Result<(), MapFault>
        requires { length self.now.entries.now ≤ slots }
        ensures { result ≡ plain_change P.TABLE slots range.first range.last self.now.entries.now }
    {
        if is_bad(range) {
            return Err(MapFault::BadRange);
        }
        if let Some(first) = self.first_uncovered(range) {
            return Err(MapFault::Uncovered { first });
        }
        // Told by what is left, since entries and cuts together might not fit a count.
        if self.count_cuts(range) > slots - self.entries.len() {
            return Err(MapFault::Full { table: P::TABLE });
        }
        Ok(())
    }
}
