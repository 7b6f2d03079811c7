// Questions on entries that rise. Each begins at the place of a position: the index of the first entry that ends there or past it.
ghost use Rattle.std.specs.Prelude.{◌≡◌, ◌+◌, ◌^◌, ◌<◌, ◌≤◌, length, drop, Bool};
ghost use Rattle.range_map.specs.Halving.{place};
ghost use Rattle.range_map.specs.Placed.{rest};
ghost use Rattle.range_map.specs.Plain.{at, cuts, cuts_of, gap, gap_by, hit};

use crate::entry::{Entry, Span};
use crate::rising::RisingEntries;

impl<'a, P: Copy> RisingEntries<'a, P> {
    pub(crate) fn find(&self, position: u64) -> usize
        ensures place { result ≡ place position self.now.entries.now }
        ensures within { result ≤ length self.now.entries.now }
    {
        self.entries.partition_point(|e| e.ends_before(position))
    }

    // The entry that covers the position.
    pub(crate) fn covering(&self, position: u64) -> Option<Entry<P>>
        ensures { result ≡ at position self.now.entries.now }
    {
        let i = self.find(position);
        self.entries.get(i).copied().filter(|e| e.first <= position)
    }

    // The first position of a range that an entry covers.
    pub(crate) fn first_taken(&self, range: Span) -> Option<u64>
        ensures { result ≡ hit range.first range.last self.now.entries.now }
    {
        let i = self.find(range.first);
        self.entries
            .get(i)
            .map(|e| e.first_from(range.first))
            .filter(|n| *n <= range.last)
    }

    // The entries that a walk for the position passes.
    fn ahead_of(&self, position: u64) -> &[Entry<P>]
        ensures { result.now ≡ rest position self.now.entries.now }
    {
        &self.entries[self.find(position)..]
    }

    // The first position of a range that no entry covers or whose payload fails the test. Told of each test that the calls compute.
    pub(crate) fn first_failing<F: Fn(P) -> bool>(&self, range: Span, passes: F) -> Option<u64>
        requires callable { F.IsAlwaysCallable passes }
        ensures { (t : P → Bool) → ((p : P) (b : Bool) → F.post passes p b → b ≡ t p) → result ≡ gap_by t range.first range.last (rest range.first self.now.entries.now) }
    {
        let mut wanted = range.first;
        for e in self.ahead_of(range.first) {
            if wanted < e.first || !passes(e.payload) {
                return Some(wanted);
            }
            if e.last >= range.last {
                return None;
            }
            wanted = e.last + 1;
        }
        Some(wanted)
    }

    // The first position of a range that no entry covers.
    pub(crate) fn first_uncovered(&self, range: Span) -> Option<u64>
        ensures { result ≡ gap range.first range.last self.now.entries.now }
    {
        self.first_failing(range, |_| true)
    }

    // Those from an index on.
    fn from(&self, i: usize) -> RisingEntries<'_, P>
        requires within { i ≤ length self.now.entries.now }
        ensures { result.entries.now ≡ drop i self.now.entries.now }
    {
        RisingEntries {
            entries: &self.entries[i..],
        }
    }

    // The places of a range's first position and of the one past its last. The second lies from the first on, mostly
    // near: it is looked for there alone.
    pub(crate) fn places(&self, range: Span) -> (usize, usize)
        requires ordered { range.first ≤ range.last }
        requires bound { range.last < 2 ^ 62 }
        ensures first { result.0 ≡ place range.first self.now.entries.now }
        ensures past { result.1 ≡ place (range.last + 1) self.now.entries.now }
    {
        let first = self.find(range.first);
        (first, first + self.from(first).find(range.last + 1))
    }

    // Whether a cut before position `n` adds an entry: 1 or 0.
    fn splits(&self, i: usize, n: u64) -> usize
        requires here { i ≡ place n self.now.entries.now }
        ensures cuts { result ≡ cuts n self.now.entries.now }
        ensures few { result ≤ 1 }
    {
        usize::from(self.entries.get(i).is_some_and(|e| e.begins_before(n)))
    }

    // How many entries a change of a range adds: one for each end that falls inside an entry.
    pub(crate) fn count_cuts(&self, range: Span) -> usize
        requires ordered { range.first ≤ range.last }
        requires bound { range.last < 2 ^ 62 }
        ensures cuts { result ≡ cuts_of range.first range.last self.now.entries.now }
        ensures few { result ≤ 2 }
    {
        let (first, past) = self.places(range);
        self.splits(first, range.first) + self.splits(past, range.last + 1)
    }
}
