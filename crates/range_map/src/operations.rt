// What may be asked of a map, and done to it. Answers and entries are stated by the index at which a halving stops,
// and by the definitions in plain words (the clauses `in_plain_words`): entries rise, so the two agree.
ghost use Rattle.std.specs.Prelude.{◌≡◌, ◌<◌, false, [], length, is_ok, if◌then◌else◌, Bool, Ok, nat_le, nat_lt, map};
ghost use Rattle.range_map.specs.Halving.{place};
ghost use Rattle.range_map.specs.Laws.{Covering, CutLosesNothing, FirstOpen, FirstTaken, PlainChange, PlainLay, PlainRepay, RunsAtMost, SizesCountPositions};
ghost use Rattle.range_map.specs.Map.{change_answer, entry_of, in_use, lay_answer, nth, repaid_at, slots_of};
ghost use Rattle.range_map.specs.Placed.{changed, found, laid, payload_found, rest, taken};
ghost use Rattle.range_map.specs.Plain.{Rising, at, bad, gap, gap_by, payload_at, remade};
ghost use Rattle.range_map.specs.declared.entry.Entry.{Entry as EntryOf};
ghost use Rattle.range_map.specs.Replies.{plain_change, plain_lay};

use crate::asks::{Remake, Test};
use crate::entry::{Entry, Payload, Span};
use crate::fault::MapFault;
use crate::lent::Lent;
use crate::map::RangeMap;
use crate::rising::RisingEntries;

impl<'a, P: Payload> RangeMap<'a, P> {
    // An empty map, whatever the slots hold.
    pub fn new(slots: &'a mut [Entry<P>]) -> RangeMap<'a, P>
        ensures empty { in_use result ≡ [] }
        ensures all_slots { slots_of result ≡ length slots.old }
        ensures rising { Rising (in_use result) }
    {
        RangeMap {
            inner: Lent::new(slots),
        }
    }

    // The entries in use, to read.
    pub fn entries(&self) -> &[Entry<P>]
        ensures as_they_lie { result.now ≡ in_use self.now }
        ensures sizes_count_positions { SizesCountPositions result.now }
        ensures runs_at_most { RunsAtMost (length result.now) result.now }
    {
        self.inner.entries()
    }

    // The index of the first entry that ends at the position or past it, where a walk begins.
    pub fn index_of(&self, position: u64) -> usize
        ensures place { result ≡ place position (in_use self.now) }
    {
        self.inner.place_of(position)
    }

    // The number of entries in use.
    pub fn count(&self) -> usize
        ensures in_use { result ≡ length (in_use self.now) }
    {
        self.entries().len()
    }

    pub fn capacity(&self) -> usize
        ensures all_slots { result ≡ slots_of self.now }
    {
        self.inner.slots.len()
    }

    // Whether every slot is used.
    pub fn full(&self) -> bool
        ensures every_slot_used { result ≡ nat_le (slots_of self.now) (length (in_use self.now)) }
    {
        self.capacity() <= self.count()
    }

    // The entry at an index, from 0.
    pub fn entry(&self, i: usize) -> Option<Entry<P>>
        ensures by_index { result ≡ nth i (in_use self.now) }
    {
        self.entries().get(i).copied()
    }

    // The entry that covers a position.
    pub fn find(&self, position: u64) -> Option<Entry<P>>
        ensures as_placed { result ≡ found position (in_use self.now) }
        ensures in_plain_words { result ≡ at position (in_use self.now) }
        ensures covering { Covering position (in_use self.now) result }
    {
        self.rising().covering(position)
    }

    // The payload that a position has.
    pub fn get(&self, position: u64) -> Option<P>
        ensures as_placed { result ≡ payload_found position (in_use self.now) }
        ensures in_plain_words { result ≡ payload_at position (in_use self.now) }
    {
        self.find(position).map(|e| e.payload)
    }

    // The first position of a range that an entry covers.
    pub fn taken(&self, range: Span) -> Option<u64>
        ensures as_placed { result ≡ taken range.first range.last (in_use self.now) }
        ensures in_plain_words { FirstTaken range.first range.last (in_use self.now) result }
    {
        self.rising().first_taken(range)
    }

    // The first position of a range that no entry covers or whose payload fails the test.
    #[tactic(auto, using(crate::proofs::Joining::failing_is_gap_by))]
    pub fn first_failing<T: Test<P>>(&self, range: Span, test: &T) -> Option<u64>
        ensures as_placed { result ≡ gap_by (T.Test.passing test.now) range.first range.last (rest range.first (in_use self.now)) }
        ensures in_plain_words { result ≡ gap_by (T.Test.passing test.now) range.first range.last (in_use self.now) }
    {
        self.rising()
            .first_failing(range, |payload| test.passes(payload))
    }

    // What `lay` would reply, with nothing changed.
    pub fn check_lay(&self, range: Span) -> Result<(), MapFault>
        ensures reply { result ≡ lay_answer P.TABLE (slots_of self.now) range.first range.last (in_use self.now) }
        ensures in_plain_words { result ≡ plain_lay P.TABLE (slots_of self.now) range.first range.last (in_use self.now) }
    {
        let slots = self.capacity();
        self.rising().judge_lay(slots, range)
    }

    // What `change` would reply, with nothing changed.
    pub fn check_change(&self, range: Span) -> Result<(), MapFault>
        ensures reply { result ≡ change_answer P.TABLE (slots_of self.now) range.first range.last (in_use self.now) }
        ensures in_plain_words { result ≡ plain_change P.TABLE (slots_of self.now) range.first range.last (in_use self.now) }
        ensures cut_loses_nothing { CutLosesNothing (in_use self.now) }
        ensures uncovered_means { bad range.first range.last ≡ false → FirstOpen range.first range.last (in_use self.now) (gap range.first range.last (in_use self.now)) }
    {
        let slots = self.capacity();
        self.rising().judge_change(slots, range)
    }

    // One entry more, in its place.
    pub fn lay(&mut self, range: Span, payload: P) -> Result<(), MapFault>
        ensures reply { result ≡ lay_answer P.TABLE (slots_of self.old) range.first range.last (in_use self.old) }
        ensures entries { in_use self.new ≡ (if is_ok result then laid (entry_of range.first range.last payload) (in_use self.old) else in_use self.old) }
        ensures refusal_leaves_all { is_ok result ≡ false → self.new ≡ self.old }
        ensures slots_stay { slots_of self.new ≡ slots_of self.old }
        ensures keeps_rising { Rising (in_use self.new) }
        ensures in_plain_words { PlainLay P.TABLE (slots_of self.old) range.first range.last payload (in_use self.old) result (in_use self.new) }
    {
        self.check_lay(range)?;
        self.lay_checked(range, payload);
        Ok(())
    }

    // Another payload for the positions of a range: cuts at its ends where they fall inside entries, both parts keeping the payload,
    // then the new payload for every entry within.
    pub fn change(&mut self, range: Span, payload: P) -> Result<(), MapFault>
        ensures reply { result ≡ change_answer P.TABLE (slots_of self.old) range.first range.last (in_use self.old) }
        ensures entries { in_use self.new ≡ (if is_ok result then changed range.first range.last payload (in_use self.old) else in_use self.old) }
        ensures refusal_leaves_all { is_ok result ≡ false → self.new ≡ self.old }
        ensures slots_stay { slots_of self.new ≡ slots_of self.old }
        ensures keeps_rising { Rising (in_use self.new) }
        ensures in_plain_words { PlainChange P.TABLE (slots_of self.old) range.first range.last payload (in_use self.old) result (in_use self.new) }
        ensures cut_loses_nothing { CutLosesNothing (in_use self.old) }
    {
        self.check_change(range)?;
        self.change_checked(range, payload);
        Ok(())
    }

    // Another payload for the entry at an index, in place: false where there is none. A bool, since nothing
    // comes with either answer.
    pub fn repay(&mut self, i: usize, payload: P) -> bool
        ensures present { result ≡ nat_lt i (length (in_use self.old)) }
        ensures entries { in_use self.new ≡ repaid_at i payload (in_use self.old) }
        ensures absence_leaves_all { result ≡ false → self.new ≡ self.old }
        ensures slots_stay { slots_of self.new ≡ slots_of self.old }
        ensures keeps_rising { Rising (in_use self.new) }
        ensures in_plain_words { PlainRepay i payload (in_use self.old) (in_use self.new) }
    {
        if i >= self.count() {
            return false;
        }
        self.repay_checked(i, payload);
        true
    }

    // Another payload for every entry, in place: what becomes of it. Ranges stay.
    pub fn remake<R: Remake<P>>(&mut self, remake: &R)
        ensures every_entry { in_use self.new ≡ map (remade (R.Remake.becoming remake.now)) (in_use self.old) }
        ensures slots_stay { slots_of self.new ≡ slots_of self.old }
    {
        self.inner.remake(|entry| remake.becomes(entry));
    }

    // The entries in use, with what is known of them.
    fn rising(&self) -> RisingEntries<'_, P>
        ensures { result.entries.now ≡ in_use self.now }
    {
        self.inner.rising()
    }

    // What is left of a call once its check has passed.
    fn lay_checked(&mut self, range: Span, payload: P)
        requires { Ok tt ≡ plain_lay P.TABLE (slots_of self.old) range.first range.last (in_use self.old) }
        ensures entries { in_use self.new ≡ laid (entry_of range.first range.last payload) (in_use self.old) }
        ensures slots_stay { slots_of self.new ≡ slots_of self.old }
        ensures in_plain_words { PlainLay P.TABLE (slots_of self.old) range.first range.last payload (in_use self.old) (Ok tt) (in_use self.new) }
    {
        self.inner.lay(Entry {
            first: range.first,
            last: range.last,
            payload,
        });
    }

    fn change_checked(&mut self, range: Span, payload: P)
        requires { Ok tt ≡ plain_change P.TABLE (slots_of self.old) range.first range.last (in_use self.old) }
        ensures entries { in_use self.new ≡ changed range.first range.last payload (in_use self.old) }
        ensures slots_stay { slots_of self.new ≡ slots_of self.old }
        ensures in_plain_words { PlainChange P.TABLE (slots_of self.old) range.first range.last payload (in_use self.old) (Ok tt) (in_use self.new) }
    {
        self.inner.change(range, payload);
    }

    fn repay_checked(&mut self, i: usize, payload: P)
        requires { i < length (in_use self.old) }
        ensures entries { in_use self.new ≡ repaid_at i payload (in_use self.old) }
        ensures slots_stay { slots_of self.new ≡ slots_of self.old }
        ensures in_plain_words { PlainRepay i payload (in_use self.old) (in_use self.new) }
    {
        self.inner.put(i, payload);
    }
}
