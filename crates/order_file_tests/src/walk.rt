// Goes through a file order by order.
use order_file::{NumberRange, Order, ReadFault, read_order};

// How many orders could be read, how many of them were lawful, and the refusal that ended the walk.
#[derive(Clone, Copy, PartialEq, Eq, Debug)]
pub struct Walk {
    pub read: usize,
    pub lawful: usize,
    pub end: ReadFault,
}

pub(crate) fn walk_through(file: &[u8]) -> Walk {
    let mut rest = file;
    let mut read = 0usize;
    let mut lawful = 0usize;
    // No iterator: the refusal that ends the walk is part of its answer.
    loop {
        let place = file.len().saturating_sub(rest.len());
        match read_order(rest, place) {
            Ok((order, after)) => {
                read = read.saturating_add(1);
                lawful = lawful.saturating_add(usize::from(order.check().is_ok()));
                rest = after;
            }
            Err(end) => return Walk { read, lawful, end },
        }
    }
}

// The distance at which an order is refused; 0 if it is lawful. 0 and no Option: the tests' expected
// figures stand.
pub(crate) fn refused_distance(order: Order) -> usize {
    order.check().err().map_or(0, |fault| fault.distance)
}

pub(crate) fn count(range: NumberRange) -> u64 {
    range.count()
}
