// How a total moves.
ghost use Rattle.std.specs.Prelude.{◌≡◌};
ghost use Rattle.books.specs.Changes.{moved};

use figures::MAX_TOTAL;

#[derive(Clone, Copy, PartialEq, Eq, Debug)]
pub enum Change {
    Up(u64),
    Down(u64),
}

impl Change {
    // The total after the move; it stops at 0 and at its limit.
    pub fn moved_total(self, amount: u64) -> u64
        ensures moved { result ≡ moved self amount }
    {
        let moved = match self {
            Change::Up(n) => amount.saturating_add(n),
            Change::Down(n) => amount.saturating_sub(n),
        };
        moved.min(MAX_TOTAL)
    }
}
