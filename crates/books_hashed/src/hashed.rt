// A book that is a hash table with linear probing, for every kind of key.
ghost use Rattle.std.specs.Prelude.{◌≡◌, ℕ, ◌<◌, true, length, IfOk};
ghost use Rattle.books.specs.Ledger.{matches, roomy, empty_ledger};
ghost use Rattle.books.specs.Faults.{forgotten, add_verdict};
ghost use Rattle.books_hashed.specs.Hashed.{table_ledger, TableSound, TableSound-prop};
ghost use Rattle.books_hashed.specs.Probing.{probe_for};
ghost use Rattle.books_hashed.specs.declared.probing.Probe.TheVariants.{Found, Free};

use crate::probing::{Probe, clear, probe_for, put_row, put_totals, slot_at};
use books::{Book, BookFault, Key, Row};
use figures::{Account, Device, MAX_MEMBERS};

pub type AccountsHashed<'a> = BookHashed<'a, Account>;

pub type DevicesHashed<'a> = BookHashed<'a, Device>;

// Lent slots and no Vec: a book allocates nothing.
#[derive(Drop)]
pub struct BookHashed<'a, K: Key> {
    slots: &'a mut [Option<Row<K::Plain>>],
    used: usize,
    ghost sound: { TableSound K.Key.order K.Key.spread slots.now used } by { TableSound-prop K.Key.order K.Key.spread slots.now used },
}

impl<'a, K: Key> BookHashed<'a, K> {
    // An empty book: every slot is made free, whatever it holds.
    pub fn new(slots: &'a mut [Option<Row<K::Plain>>]) -> BookHashed<'a, K>
        ensures empty { table_ledger result.slots.now result.used ≡ empty_ledger (length slots.old) }
    {
        clear(slots);
        BookHashed { slots, used: 0 }
    }

    fn probe_key(&self, key: K) -> Probe
        ensures ends { result ≡ probe_for K.Key.order K.Key.spread (K.Key.plain key) self.now.slots.now }
        ensures found_inside { (at : ℕ) → result ≡ Found at → at < length self.now.slots.now }
        ensures free_inside { (at : ℕ) → result ≡ Free at → at < length self.now.slots.now }
    {
        probe_for::<K>(self.slots, key.to_plain())
    }

    // The slot for a key that may join.
    fn vacancy(&self, key: K) -> Result<usize, BookFault>
        ensures verdict { forgotten result ≡ add_verdict K.Key.BOOK (matches K.Key.order (K.Key.plain key)) (table_ledger self.now.slots.now self.now.used) }
        ensures slot { IfOk result (λ at. (roomy (table_ledger self.now.slots.now self.now.used) ≡ true) × (probe_for K.Key.order K.Key.spread (K.Key.plain key) self.now.slots.now ≡ Free at)) }
    {
        match self.probe_key(key) {
            Probe::Found(_) => Err(BookFault::Present { book: K::BOOK }),
            Probe::Full => Err(BookFault::Full { book: K::BOOK }),
            Probe::Free(_) if self.is_full() => Err(BookFault::Full { book: K::BOOK }),
            Probe::Free(at) => Ok(at),
        }
    }
}

impl<K: Key> Book<K> for BookHashed<'_, K> {
    ghost meaning = { λ b. table_ledger b.slots.now b.used };

    ghost alone = { λ b. b.sound.alone };

    fn add(&mut self, key: K) -> Result<u64, BookFault> {
        let at = self.vacancy(key)?;
        let number = self.next_number();
        let row = Row::joining(key.to_plain(), number);
        put_row(self.slots, &mut self.used, at, row);
        Ok(number)
    }

    // In each book, as `add` and `capacity` are: they go through the book's own slots. The place that
    // `vacancy` answers means nothing to callers, so the trait does not name it.
    fn vet_add(&self, key: K) -> Result<(), BookFault> {
        self.vacancy(key).map(|_| ())
    }

    fn write_totals(&mut self, key: K, first: u64, second: u64) -> Result<(), BookFault> {
        let Probe::Found(at) = self.probe_key(key) else {
            return Err(BookFault::Absent { book: K::BOOK });
        };
        put_totals(self.slots, at, first, second);
        Ok(())
    }

    fn find(&self, key: K) -> Option<Row<K::Plain>> {
        let Probe::Found(at) = self.probe_key(key) else {
            return None;
        };
        slot_at(self.slots, at)
    }

    fn count(&self) -> usize {
        self.used
    }

    fn capacity(&self) -> usize {
        self.slots.len().min(MAX_MEMBERS)
    }
}
