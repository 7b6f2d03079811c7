// Postings: the totals of one party, or of two, move by counts. Written over any book.
ghost use Rattle.std.specs.Prelude.{◌≡◌, false};
ghost use Rattle.books.specs.Ledger.{matches, present};
ghost use Rattle.books.specs.Changes.{moved_both, posted};

use crate::book::Book;
use crate::changes::Change;
use crate::keys::Key;

// What happens to both totals of one party.
#[derive(Clone, Copy, PartialEq, Eq, Debug)]
pub struct Posting<K> {
    pub key: K,
    pub first: Change,
    pub second: Change,
}

impl<K: Copy> Posting<K> {
    // The party's totals after it.
    pub fn moved(&self, totals: (u64, u64)) -> (u64, u64)
        ensures moved { result ≡ moved_both self.now.first self.now.second totals }
    {
        let (first, second) = totals;
        (
            self.first.moved_total(first),
            self.second.moved_total(second),
        )
    }
}

// Both totals move and stop at their limits; a party that is no member is passed over.
pub fn post<K: Key, B: Book<K>>(book: &mut B, posting: Posting<K>)
    ensures after { B.Book.meaning book.new ≡ posted (matches K.Key.order (K.Key.plain posting.key)) posting.first posting.second (B.Book.meaning book.old) }
    ensures absent_leaves_all { present (matches K.Key.order (K.Key.plain posting.key)) (B.Book.meaning book.old).members ≡ false → book.new ≡ book.old }
{
    let Some(totals) = book.totals(posting.key) else {
        return;
    };
    let (first, second) = posting.moved(totals);
    let _ = book.write_totals(posting.key, first, second);
}

// One posting, then the other.
pub fn post_both<K: Key, B: Book<K>>(book: &mut B, one: Posting<K>, other: Posting<K>)
    ensures after { B.Book.meaning book.new ≡ posted (matches K.Key.order (K.Key.plain other.key)) other.first other.second (posted (matches K.Key.order (K.Key.plain one.key)) one.first one.second (B.Book.meaning book.old)) }
{
    post(book, one);
    post(book, other);
}
