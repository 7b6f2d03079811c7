// Slots that the caller lends, with the entries in use in front. Slots past them are undecided.
ghost use Rattle.std.specs.Prelude.{◌≡◌, ◌+◌, ◌-◌, ◌^◌, ◌<◌, ◌≤◌, ◌∷◌, length, map, take};
ghost use Rattle.std.specs.List.{insert};
ghost use Rattle.range_map.specs.Begun.{BeginBelow};
ghost use Rattle.range_map.specs.Halving.{place};
ghost use Rattle.range_map.specs.Lent.{LentSound, entries_in, paid_within, slots_in};
ghost use Rattle.range_map.specs.Map.{repaid_at};
ghost use Rattle.range_map.specs.declared.entry.Entry.{Entry as EntryOf};
ghost use Rattle.range_map.specs.Plain.{change, cut, cuts, cuts_of, ends, lay, remade, repaid};

use crate::entry::{Entry, Span};
use crate::rising::RisingEntries;

// Lent slots and no Vec: a map allocates nothing.
#[derive(Drop)]
pub struct Lent<'a, P> {
    pub(crate) slots: &'a mut [Entry<P>],
    pub(crate) used: usize,
}

// Every entry gets what becomes of it. Told of each function that the calls compute.
fn remake_each<P: Copy, F: Fn(Entry<P>) -> P>(entries: &mut [Entry<P>], becomes: F)
    requires callable { F.IsAlwaysCallable becomes }
    ensures each { (g : EntryOf P → P) → ((e : EntryOf P) (p : P) → F.post becomes e p → p ≡ g e) → entries.new ≡ map (remade g) entries.old }
    ensures ranges_stay { map ends entries.new ≡ map ends entries.old }
{
    for entry in entries {
        entry.payload = becomes(*entry);
    }
}

// Those in front. Over slots and count: where a method lends `&mut self.slots[..used]`, its proof has no name for the slots after.
fn remake_front<P: Copy, F: Fn(Entry<P>) -> P>(slots: &mut [Entry<P>], used: usize, becomes: F)
    requires callable { F.IsAlwaysCallable becomes }
    requires fits { used ≤ length slots.old }
    ensures each { (g : EntryOf P → P) → ((e : EntryOf P) (p : P) → F.post becomes e p → p ≡ g e) → take used slots.new ≡ map (remade g) (take used slots.old) }
    ensures ranges_stay { map ends (take used slots.new) ≡ map ends (take used slots.old) }
    ensures slots_stay { length slots.new ≡ length slots.old }
{
    remake_each(&mut slots[..used], becomes);
}

// Everything in the part goes one slot up, over its last slot, and `x` stands in front. A rotation by one moves the
// part at once, where `copy_within` goes entry by entry, which took half as long again.
fn shift<P: Copy>(part: &mut [Entry<P>], x: Entry<P>)
    requires some { 0 < length part.old }
    ensures shifted { part.new ≡ x ∷ take (length part.old - 1) part.old }
{
    part.rotate_right(1);
    part[0] = x;
}

// One entry more in front, at index `i`. Past the last of them this moves nothing.
fn insert_front<P: Copy>(slots: &mut [Entry<P>], used: usize, i: usize, x: Entry<P>)
    requires within { i ≤ used }
    requires room { used < length slots.old }
    ensures after { take (used + 1) slots.new ≡ insert (take used slots.old) i x }
    ensures slots_stay { length slots.new ≡ length slots.old }
{
    shift(&mut slots[i..used + 1], x);
}

// The payload for the entries from `low` on, up to `high`.
fn pay_within<P: Copy>(slots: &mut [Entry<P>], low: usize, high: usize, payload: P)
    requires ordered { low ≤ high }
    requires within { high ≤ length slots.old }
    ensures after { slots.new ≡ paid_within low high payload slots.old }
{
    remake_each(&mut slots[low..high], |_| payload);
}

impl<'a, P: Copy> Lent<'a, P> {
    pub(crate) fn new(slots: &'a mut [Entry<P>]) -> Lent<'a, P>
        ensures none_used { result.used ≡ 0 }
        ensures all_slots { slots_in result ≡ length slots.old }
    {
        Lent { slots, used: 0 }
    }

    pub(crate) fn entries(&self) -> &[Entry<P>]
        requires fits { self.now.used ≤ slots_in self.now }
        ensures { result.now ≡ entries_in self.now }
    {
        &self.slots[..self.used]
    }

    pub(crate) fn rising(&self) -> RisingEntries<'_, P>
        requires sound { LentSound self.now }
        ensures { result.entries.now ≡ entries_in self.now }
    {
        RisingEntries {
            entries: self.entries(),
        }
    }

    // The index of the first entry that ends at the position or past it.
    pub(crate) fn place_of(&self, position: u64) -> usize
        requires sound { LentSound self.now }
        ensures place { result ≡ place position (entries_in self.now) }
        ensures within { result ≤ self.now.used }
    {
        self.rising().find(position)
    }

    // One entry more, at index `i`: those from there on go one slot up.
    fn insert(&mut self, i: usize, x: Entry<P>)
        requires within { i ≤ self.old.used }
        requires room { self.old.used < slots_in self.old }
        ensures after { entries_in self.new ≡ insert (entries_in self.old) i x }
        ensures count { self.new.used ≡ self.old.used + 1 }
        ensures slots_stay { slots_in self.new ≡ slots_in self.old }
    {
        let used = self.used;
        insert_front(self.slots, used, i, x);
        self.used = used + 1;
    }

    // One entry more, in its place.
    pub(crate) fn lay(&mut self, x: Entry<P>)
        requires sound { LentSound self.old }
        requires room { self.old.used < slots_in self.old }
        ensures after { entries_in self.new ≡ lay x (entries_in self.old) }
        ensures count { self.new.used ≡ self.old.used + 1 }
        ensures slots_stay { slots_in self.new ≡ slots_in self.old }
    {
        let i = self.place_of(x.first);
        self.insert(i, x);
    }

    // The entry in which `n` lies past the first position becomes two, cut before `n`: both keep the payload. `i` is the
    // place of `n`; the answer is how many entries begin before `n` then.
    fn cut(&mut self, i: usize, n: u64) -> usize
        requires sound { LentSound self.old }
        requires here { i ≡ place n (entries_in self.old) }
        requires room { self.old.used + cuts n (entries_in self.old) ≤ slots_in self.old }
        ensures after { entries_in self.new ≡ cut n (entries_in self.old) }
        ensures begun { result ≡ i + cuts n (entries_in self.old) }
        ensures count { self.new.used ≡ self.old.used + cuts n (entries_in self.old) }
        ensures slots_stay { slots_in self.new ≡ slots_in self.old }
    {
        let Some(e) = self
            .entries()
            .get(i)
            .copied()
            .filter(|e| e.begins_before(n))
        else {
            return i;
        };
        self.slots[i] = e.lower_part(n);
        self.insert(i + 1, e.upper_part(n));
        i + 1
    }

    // The payload for the entries that begin within a range: those from `low` on, up to `high`.
    fn pay(&mut self, range: Span, low: usize, high: usize, payload: P)
        requires fits { self.old.used ≤ slots_in self.old }
        requires ordered { range.first ≤ range.last }
        requires low { BeginBelow range.first (entries_in self.old) low }
        requires high { BeginBelow (range.last + 1) (entries_in self.old) high }
        requires within { (low ≤ self.old.used) × (high ≤ self.old.used) }
        ensures after { entries_in self.new ≡ map (repaid range.first range.last payload) (entries_in self.old) }
        ensures count { self.new.used ≡ self.old.used }
        ensures slots_stay { slots_in self.new ≡ slots_in self.old }
    {
        pay_within(self.slots, low, high, payload);
    }

    // Both cuts, then the payload for what lies between. Each end is looked for once: a cut tells how many entries begin
    // before it, and as many lie behind the range after the cut in front as before it.
    pub(crate) fn change(&mut self, range: Span, payload: P)
        requires sound { LentSound self.old }
        requires ordered { range.first ≤ range.last }
        requires bound { range.last < 2 ^ 62 }
        requires room { self.old.used + cuts_of range.first range.last (entries_in self.old) ≤ slots_in self.old }
        ensures after { entries_in self.new ≡ change range.first range.last payload (entries_in self.old) }
        ensures fits { self.new.used ≤ slots_in self.new }
        ensures slots_stay { slots_in self.new ≡ slots_in self.old }
    {
        let (first, past) = self.rising().places(range);
        let high = self.cut(past, range.last + 1);
        let behind = self.used - high;
        let low = self.cut(first, range.first);
        let high = self.used - behind;
        self.pay(range, low, high, payload);
    }

    // Every entry in use gets what becomes of it. Told of each function that the calls compute.
    pub(crate) fn remake<F: Fn(Entry<P>) -> P>(&mut self, becomes: F)
        requires callable { F.IsAlwaysCallable becomes }
        requires fits { self.old.used ≤ slots_in self.old }
        ensures after { (g : EntryOf P → P) → ((e : EntryOf P) (p : P) → F.post becomes e p → p ≡ g e) → entries_in self.new ≡ map (remade g) (entries_in self.old) }
        ensures ranges_stay { map ends (entries_in self.new) ≡ map ends (entries_in self.old) }
        ensures count { self.new.used ≡ self.old.used }
        ensures slots_stay { slots_in self.new ≡ slots_in self.old }
    {
        let used = self.used;
        remake_front(self.slots, used, becomes);
    }

    // The payload of one entry, in place.
    pub(crate) fn put(&mut self, i: usize, payload: P)
        requires fits { self.old.used ≤ slots_in self.old }
        requires within { i < self.old.used }
        ensures after { entries_in self.new ≡ repaid_at i payload (entries_in self.old) }
        ensures count { self.new.used ≡ self.old.used }
        ensures slots_stay { slots_in self.new ≡ slots_in self.old }
    {
        self.slots[i].payload = payload;
    }
}
