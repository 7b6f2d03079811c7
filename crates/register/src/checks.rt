// Checks that several calls share. Each decides by looking alone.
ghost use Rattle.std.specs.Prelude.{◌≡◌, ◌<◌, true, OnOk};
ghost use Rattle.books.specs.Ledger.{matches, present};
ghost use Rattle.register.specs.Checks.{in_book, row_free};
ghost use Rattle.register.specs.Faults.{fault_in};

use crate::faults::Fault;
use books::{Book, BookFault, Key};
use figures::{MAX_MEMBERS, Table};

// The key is a member of its book.
pub(crate) fn check_member<K: Key, B: Book<K>>(book: &B, key: K) -> Result<(), Fault>
    ensures verdict { fault_in result ≡ in_book K.Key.BOOK (present (matches K.Key.order (K.Key.plain key)) (B.Book.meaning book.now).members) }
{
    if book.running_number(key).is_none() {
        return Err(Fault::from(BookFault::Absent { book: K::BOOK }));
    }
    Ok(())
}

// A table of records: how many of its slots are used.
#[derive(Clone, Copy, PartialEq, Eq, Debug)]
pub(crate) struct RecordTable {
    pub(crate) table: Table,
    pub(crate) used: u32,
    pub(crate) slots: usize,
}

impl RecordTable {
    // A record of its own finds a slot: of the slots at most 99,999,999 count.
    pub(crate) fn check_row(self) -> Result<(), Fault>
        ensures verdict { fault_in result ≡ row_free self.table self.used self.slots }
        ensures free { OnOk result (self.used < self.slots) }
        ensures few { OnOk result (self.used < MAX_MEMBERS) }
    {
        if self.used as usize >= self.slots.min(MAX_MEMBERS) {
            return Err(Fault::Full { table: self.table });
        }
        Ok(())
    }
}
