// A book: what every way of keeping one promises.
ghost use Rattle.std.specs.Prelude.{◌≡◌, ◌+◌, ◌≤◌, true, false, not, length, is_ok};
ghost use Rattle.std.specs.Option.{option_map};
ghost use Rattle.figures.specs.Limits.{most_members};
ghost use Rattle.books.specs.Ledger.{Ledger, matches, running_number, totals as totals_in, apart, roomy};
ghost use Rattle.books.specs.Faults.{add_verdict, add_answer, add_after, write_verdict, write_after};

use crate::faults::BookFault;
use crate::keys::Key;
use crate::rows::Row;

// `meaning` is all that a caller knows of a book, and every call is exact over it.
pub trait Book<K: Key> {
    ghost meaning: { Self → Ledger K.Plain };

    // The key joins last, with totals 0, and its running number is answered.
    fn add(&mut self, key: K) -> Result<u64, BookFault>
        ensures answer { result ≡ add_answer K.Key.BOOK (matches K.Key.order (K.Key.plain key)) (meaning self.old) }
        ensures after { meaning self.new ≡ add_after (matches K.Key.order (K.Key.plain key)) (K.Key.plain key) (meaning self.old) }
        ensures refusal_leaves_all { is_ok result ≡ false → self.new ≡ self.old };

    // Whether `add` would be refused, and why.
    fn vet_add(&self, key: K) -> Result<(), BookFault>
        ensures verdict { result ≡ add_verdict K.Key.BOOK (matches K.Key.order (K.Key.plain key)) (meaning self.now) };

    // The member of this key gets these totals, each read as at most its limit.
    // Two figures and no pair: contracts name each, and one caller reckons them apart.
    fn write_totals(&mut self, key: K, first: u64, second: u64) -> Result<(), BookFault>
        ensures answer { result ≡ write_verdict K.Key.BOOK (matches K.Key.order (K.Key.plain key)) (meaning self.old) }
        ensures after { meaning self.new ≡ write_after (matches K.Key.order (K.Key.plain key)) first second (meaning self.old) }
        ensures refusal_leaves_all { is_ok result ≡ false → self.new ≡ self.old };

    // The member's row; its number and its totals are answered from it.
    fn find(&self, key: K) -> Option<Row<K::Plain>>
        ensures key { option_map (λ row. row.key) result ≡ option_map (λ row. K.Key.plain key) result }
        ensures number { option_map (λ row. row.number) result ≡ running_number (matches K.Key.order (K.Key.plain key)) (meaning self.now).members }
        ensures totals { option_map (λ row. (row.first, row.second)) result ≡ totals_in (matches K.Key.order (K.Key.plain key)) (meaning self.now).members };

    // How many members there are, no two of them with one key.
    fn count(&self) -> usize
        ensures count { result ≡ length (meaning self.now).members }
        ensures no_key_twice { apart K.Key.order (meaning self.now).members ≡ true }
        ensures within { result ≤ (meaning self.now).capacity }
        ensures limited { result ≤ most_members };

    // How many members there can be.
    fn capacity(&self) -> usize
        ensures capacity { result ≡ (meaning self.now).capacity }
        ensures limited { result ≤ most_members };

    // This and the next are not `final`: the books' own calls use them, and the checker takes that for a
    // cycle of calls where it goes through a `final` function.
    fn is_full(&self) -> bool
        ensures full { result ≡ not (roomy (meaning self.now)) }
    {
        self.count() >= self.capacity()
    }

    // The running number of the member that joins next.
    fn next_number(&self) -> u64
        ensures next { result ≡ length (meaning self.now).members + 1 }
    {
        self.count() as u64 + 1
    }

    // The member's place, counted from 1.
    final fn running_number(&self, key: K) -> Option<u64>
        ensures number { result ≡ running_number (matches K.Key.order (K.Key.plain key)) (meaning self.now).members }
    {
        self.find(key).map(|row| row.number)
    }

    final fn totals(&self, key: K) -> Option<(u64, u64)>
        ensures totals { result ≡ totals_in (matches K.Key.order (K.Key.plain key)) (meaning self.now).members }
    {
        self.find(key).map(|row| (row.first, row.second))
    }

    // No two members have one key.
    ghost alone: { (book : Self) → apart K.Key.order (meaning book).members ≡ true };
}
