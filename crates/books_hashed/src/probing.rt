// A hash table with linear probing: finding a key's slot, and putting a row into one.
ghost use Rattle.std.specs.Prelude.{◌≡◌, ℕ, ◌+◌, ◌-◌, ◌%◌, ◌<◌, ◌≤◌, length, Some, None, slice_index_or, slice_set};
ghost use Rattle.std.specs.Option.{option_map};
ghost use Rattle.books.specs.Ledger.{matches};
ghost use Rattle.books_hashed.specs.Probing.{ends_or, glanced, key_at, probe_for, probe_from};
ghost use Rattle.books.specs.Rows.{with_totals};
ghost use Rattle.books.specs.declared.rows.Row.{Row};

use books::{Key, Row};

// Where a probe ends: at the key, at a free slot before it met the key, or at neither after all slots.
// Three ends and no Result: a free slot is an answer to some callers and an error to others.
#[derive(Clone, Copy, PartialEq, Eq, Debug)]
pub(crate) enum Probe {
    Found(usize),
    Free(usize),
    Full,
}

// What the slot says of the key: the probe ends here, or goes on where another key is.
fn glance<K: Key>(slot: Option<Row<K::Plain>>, key: K::Plain, at: usize) -> Option<Probe>
    ensures glanced { result ≡ glanced (matches K.Key.order key) (option_map (λ row. row.key) slot) at }
{
    match slot {
        None => Some(Probe::Free(at)),
        // By the order, of which a kind of key has a law.
        Some(row) if K::compare(key, row.key).is_eq() => Some(Probe::Found(at)),
        Some(_) => None,
    }
}

// Where the probe ends among the slots from `from` up to `to`; if at none of them, it goes on from `to`, round
// the end of the table. One range for each call: a chain of two asks at each slot which of them it is in.
fn probe_among<K: Key>(
    slots: &[Option<Row<K::Plain>>],
    from: usize,
    to: usize,
    key: K::Plain,
) -> Option<Probe>
    requires begins { from < length slots.now }
    requires ordered { from ≤ to }
    requires within { to ≤ length slots.now }
    ensures ends { (n : ℕ) → ends_or result (probe_from (matches K.Key.order key) (key_at slots.now) (length slots.now) (to % length slots.now) n) ≡ probe_from (matches K.Key.order key) (key_at slots.now) (length slots.now) from (to - from + n) }
{
    for at in from..to {
        if let Some(end) = glance::<K>(slots[at], key, at) {
            return Some(end);
        }
    }
    None
}

// From the key's home slot on, round the end of the table.
pub(crate) fn probe_for<K: Key>(slots: &[Option<Row<K::Plain>>], key: K::Plain) -> Probe
    ensures ends { result ≡ probe_for K.Key.order K.Key.spread key slots.now }
{
    let count = slots.len();
    if count == 0 {
        return Probe::Full;
    }
    let home = (K::hashed(key) % count as u64) as usize;
    probe_among::<K>(slots, home, count, key)
        .or_else(|| probe_among::<K>(slots, 0, home, key))
        .unwrap_or(Probe::Full)
}

// What a slot holds. A function of its own, which needs no proof file, so that a wrong row is refused here.
pub(crate) fn slot_at<P: Copy>(slots: &[Option<Row<P>>], place: usize) -> Option<Row<P>>
    requires within { place < length slots.now }
    ensures slot { result ≡ slice_index_or slots.now place None }
{
    slots[place]
}

// The row takes the slot. The slots and their count change in one call, since a book of them is whole
// before and after it and not in between.
pub(crate) fn put_row<P: Copy>(
    slots: &mut [Option<Row<P>>],
    used: &mut usize,
    at: usize,
    row: Row<P>,
)
    requires within { at < length slots.old }
    requires roomy { used.old < length slots.old }
    ensures put { slots.new ≡ slice_set slots.old at (Some row) }
    ensures counted { used.new ≡ used.old + 1 }
{
    slots[at] = Some(row);
    *used += 1;
}

// The row in the slot gets these totals; those above their limit are written as the limit.
pub(crate) fn put_totals<P: Copy>(slots: &mut [Option<Row<P>>], at: usize, first: u64, second: u64)
    requires within { at < length slots.old }
    ensures put { (r : Row P) → slice_index_or slots.old at None ≡ Some r → slots.new ≡ slice_set slots.old at (Some (with_totals r first second)) }
{
    slots[at] = slots[at].map(|row| row.with_totals(first, second));
}

pub(crate) fn clear<P: Copy>(slots: &mut [Option<Row<P>>])
    ensures free { (p : ℕ) → slice_index_or slots.new p None ≡ None }
    ensures same_length { length slots.new ≡ length slots.old }
{
    slots.fill(None);
}
