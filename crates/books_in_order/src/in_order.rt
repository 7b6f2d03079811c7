// A book whose rows lie in key order, for every kind of key.
ghost use Rattle.std.specs.Prelude.{◌≡◌, true, length, take, IfOk, Err};
ghost use Rattle.books.specs.Ledger.{matches, roomy, empty_ledger};
ghost use Rattle.books.specs.Faults.{forgotten, add_verdict};
ghost use Rattle.books_in_order.specs.InOrder.{keyed_ledger, KeyedSound, KeyedSound-prop};
ghost use Rattle.books_in_order.specs.KeyOrder.{Sought};

use crate::key_order::{insert, row_at};
use books::{Book, BookFault, Key, Row};
use figures::{Account, Device, MAX_MEMBERS};

pub type AccountsInOrder<'a> = BookInOrder<'a, Account>;

pub type DevicesInOrder<'a> = BookInOrder<'a, Device>;

// Lent slots and no Vec: a book allocates nothing.
#[derive(Drop)]
pub struct BookInOrder<'a, K: Key> {
    rows: &'a mut [Row<K::Plain>],
    used: usize,
    ghost sound: { KeyedSound K.Key.order rows.now used } by { KeyedSound-prop K.Key.order rows.now used },
}

impl<'a, K: Key> BookInOrder<'a, K> {
    // An empty book, whatever the slots hold.
    pub fn new(rows: &'a mut [Row<K::Plain>]) -> BookInOrder<'a, K>
        ensures empty { keyed_ledger result.rows.now result.used ≡ empty_ledger (length rows.old) }
    {
        BookInOrder { rows, used: 0 }
    }

    // The rows in use, in key order.
    fn rows_in_use(&self) -> &[Row<K::Plain>]
        ensures in_use { result.now ≡ take self.now.used self.now.rows.now }
    {
        &self.rows[..self.used]
    }

    // The row of the key, or the place where it belongs.
    fn seek_key(&self, key: K) -> Result<usize, usize>
        ensures sought { Sought K.Key.order (K.Key.plain key) (take self.now.used self.now.rows.now) result }
    {
        self.rows_in_use()
            .binary_search_by_key(&key.to_plain(), |row| row.key)
    }

    // The place of a key that may join.
    fn vacancy(&self, key: K) -> Result<usize, BookFault>
        ensures verdict { forgotten result ≡ add_verdict K.Key.BOOK (matches K.Key.order (K.Key.plain key)) (keyed_ledger self.now.rows.now self.now.used) }
        ensures place { IfOk result (λ p. (roomy (keyed_ledger self.now.rows.now self.now.used) ≡ true) × Sought K.Key.order (K.Key.plain key) (take self.now.used self.now.rows.now) (Err p)) }
    {
        let Err(place) = self.seek_key(key) else {
            return Err(BookFault::Present { book: K::BOOK });
        };
        if self.is_full() {
            return Err(BookFault::Full { book: K::BOOK });
        }
        Ok(place)
    }
}

impl<K: Key> Book<K> for BookInOrder<'_, K> {
    ghost meaning = { λ b. keyed_ledger b.rows.now b.used };

    ghost alone = { λ b. b.sound.alone };

    fn add(&mut self, key: K) -> Result<u64, BookFault> {
        let place = self.vacancy(key)?;
        let number = self.next_number();
        let row = Row::joining(key.to_plain(), number);
        insert(self.rows, &mut self.used, place, row);
        Ok(number)
    }

    // In each book, as `add` and `capacity` are: they go through the book's own slots. The place that
    // `vacancy` answers means nothing to callers, so the trait does not name it.
    fn vet_add(&self, key: K) -> Result<(), BookFault> {
        self.vacancy(key).map(|_| ())
    }

    fn write_totals(&mut self, key: K, first: u64, second: u64) -> Result<(), BookFault> {
        let at = self
            .seek_key(key)
            .map_err(|_| BookFault::Absent { book: K::BOOK })?;
        self.rows[at] = self.rows[at].with_totals(first, second);
        Ok(())
    }

    fn find(&self, key: K) -> Option<Row<K::Plain>> {
        let at = self.seek_key(key).ok()?;
        Some(row_at(self.rows, at))
    }

    #[tactic(auto, using(crate::proofs::KeyOrdered::in_order_count))]
    fn count(&self) -> usize {
        self.used
    }

    fn capacity(&self) -> usize {
        self.rows.len().min(MAX_MEMBERS)
    }
}
