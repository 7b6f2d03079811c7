// What is found at a place of an order file.
use crate::refusals::Refusal;
use order_file::Order;

#[derive(Clone, Copy, PartialEq, Eq, Debug)]
pub struct Finding {
    // The order, if its operands are lawful.
    pub order: Result<Order, Refusal>,
    // Where to go on: past an order that was read, else at the end of the file, since nothing can
    // be read behind an order that cannot.
    pub next: usize,
}
