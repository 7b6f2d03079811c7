// The orders of a file, one after the other.
ghost use Rattle.std.specs.Prelude.{◌≡◌, ◌-◌, length};
ghost use Rattle.inspection.specs.Files.{findings};

use crate::refusals::Refusal;
use crate::step::inspect_order;
use order_file::Order;

// Gives each order with the place of its command byte; one that cannot be read is the last.
#[derive(Drop)]
pub(crate) struct Orders<'a> {
    file: &'a [u8],
    place: usize,
}

impl<'a> Orders<'a> {
    ghost use Rattle.inspection.specs.Orders.{orders_left};

    pub(crate) fn of(file: &'a [u8]) -> Orders<'a>
        ensures all { orders_left result ≡ findings file.now }
    {
        Orders { file, place: 0 }
    }
}

impl<'a> Iterator for Orders<'a> {
    ghost use Rattle.std.specs.Iterator.{at_most, YieldsFirst};
    ghost use Rattle.inspection.specs.Orders.{orders_left};

    type Item = (usize, Result<Order, Refusal>);

    ghost next_gives = { YieldsFirst orders_left };

    ghost remaining = { λ s. at_most (length s.file.now - s.place) };

    #[tactic(auto, using(crate::proofs::Walk::none_left, crate::proofs::Walk::one_left))]
    fn next(&mut self) -> Option<(usize, Result<Order, Refusal>)> {
        let place = self.place;
        let finding = inspect_order(self.file, place)?;
        self.place = finding.next;
        Some((place, finding.order))
    }
}
