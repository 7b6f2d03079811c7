// Why a book refuses. Each refusal says which book.
ghost use Rattle.std.specs.Prelude.{◌≡◌};
ghost use Rattle.books.specs.Faults.{number_of, book_of};

use figures::BookName;

#[derive(Clone, Copy, PartialEq, Eq, Debug)]
pub enum BookFault {
    // The key is a member already.
    Present { book: BookName },
    // The members equal the capacity.
    Full { book: BookName },
    // The key is no member.
    Absent { book: BookName },
}

impl BookFault {
    // A method and no `From`: the name says which figure of the fault is meant.
    pub fn number(&self) -> u8
        ensures number { result ≡ number_of self.now }
    {
        match self {
            BookFault::Present { .. } => 4,
            BookFault::Full { .. } => 5,
            BookFault::Absent { .. } => 6,
        }
    }

    pub fn book(&self) -> BookName
        ensures book { result ≡ book_of self.now }
    {
        match *self {
            BookFault::Present { book } | BookFault::Full { book } | BookFault::Absent { book } =>
                book,
        }
    }
}
