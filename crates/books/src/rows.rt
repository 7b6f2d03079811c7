// A row: how a book keeps a member.
ghost use Rattle.std.specs.Prelude.{◌≡◌};
ghost use Rattle.books.specs.Rows.{blank, joining, with_totals};

use figures::MAX_TOTAL;

#[derive(Clone, Copy, PartialEq, Eq, Debug)]
pub struct Row<P> {
    pub key: P,
    // The member's running number. The rows lie in another order than that of joining.
    pub number: u64,
    pub first: u64,
    pub second: u64,
}

impl<P: Copy> Row<P> {
    // A row to fill slots with before a book is made over them; what it holds does not matter.
    pub fn blank(key: P) -> Row<P>
        ensures blank { result ≡ blank key }
    {
        Row::joining(key, 0)
    }

    // The row of a member that joins.
    pub fn joining(key: P, number: u64) -> Row<P>
        ensures joining { result ≡ joining key number }
    {
        Row {
            key,
            number,
            first: 0,
            second: 0,
        }
    }

    // The row with these totals; one above the limit is kept as the limit.
    pub fn with_totals(self, first: u64, second: u64) -> Row<P>
        ensures totals { result ≡ with_totals self first second }
    {
        Row {
            first: first.min(MAX_TOTAL),
            second: second.min(MAX_TOTAL),
            ..self
        }
    }
}
