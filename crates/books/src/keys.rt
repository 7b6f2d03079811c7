// What can be a key of a book.
ghost use Rattle.std.specs.Prelude.{◌≡◌, ℕ};
ghost use Rattle.std.specs.declared.cmp.Ordering.{Ordering};
ghost use Rattle.figures.specs.Accounts.{TotalOrder};
ghost use Rattle.figures.specs.declared.names.BookName.{BookName};

use figures::BookName;
use std::cmp::Ordering;

// A key is checked once, when it is made; a book's rows keep its plain form, whose `Ord` finds it.
pub trait Key: Copy {
    type Plain: Copy + Ord;

    ghost plain: { Self → Self.Plain };

    ghost order: { Self.Plain → Self.Plain → Ordering };

    // Any function will do: that a hashed book is right rests on nothing of it.
    ghost spread: { Self.Plain → ℕ };

    ghost BOOK: { BookName };

    // The book that has keys of this kind.
    const BOOK: BookName;

    // No `From`, whose clause would be a relation: contracts name the plain form as a function of the key.
    fn to_plain(self) -> Self::Plain
        ensures plain { result ≡ plain self };

    // No `Hash`, which leaves the figure to a hasher: the slots follow from the key alone.
    fn hashed(key: Self::Plain) -> u64
        ensures spread { result ≡ spread key };

    // Keys are found by the order of their plain form.
    final fn compare(one: Self::Plain, other: Self::Plain) -> Ordering
        ensures answer { result ≡ order one other }
    {
        one.cmp(&other)
    }

    ghost compares: { (one other : Self.Plain) → Self.Plain.cmp one other ≡ order one other };

    ghost total: { TotalOrder order };
}
