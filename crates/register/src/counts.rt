// How many certificates the entries of a kind have together.
ghost use Rattle.std.specs.Prelude.{◌≡◌, min, Bool};
ghost use Rattle.figures.specs.Limits.{most_total};
ghost use Rattle.range_map.specs.Counts.{size};
ghost use Rattle.range_map.specs.Map.{in_use};
ghost use Rattle.range_map.specs.declared.entry.Entry.{Entry as EntryOf};
ghost use Rattle.register.specs.Holdings.{counted, given_back};
ghost use Rattle.register.specs.declared.rows.Standing.{Standing as StandingOf};

use crate::rows::Standing;
use crate::terms::Today;
use figures::MAX_TOTAL;
use range_map::Entry;

// Whether a recall gives the entry back: it is under the offer, and in term.
pub(crate) fn is_given_back(entry: Entry<Standing>, offer: u32, today: Today<'_, '_>) -> bool
    ensures given_back { result ≡ given_back offer today.entry.date (in_use today.entry.origins.now) entry }
{
    entry.payload.is_offered_under(offer) && !today.lapses(entry)
}

// How many numbers an entry has, read as at most the limit of totals.
pub(crate) fn size_of(entry: Entry<Standing>) -> u64
    ensures size { result ≡ min (size entry) most_total }
{
    entry.last.saturating_sub(entry.first).min(MAX_TOTAL - 1) + 1
}

// The sizes of the entries that count, added up; a sum past the limit of totals reads as that limit. Told of each test that the calls compute.
pub(crate) fn count_picked<F: Fn(Entry<Standing>) -> bool>(
    entries: &[Entry<Standing>],
    picked: F,
) -> u64
    requires callable { F.IsAlwaysCallable picked }
    ensures counted { (t : EntryOf StandingOf → Bool) → ((e : EntryOf StandingOf) (b : Bool) → F.post picked e b → b ≡ t e) → result ≡ counted t entries.now }
{
    let mut total: u64 = 0;
    for entry in entries {
        if picked(*entry) {
            total = (total + size_of(*entry)).min(MAX_TOTAL);
        }
    }
    total
}
