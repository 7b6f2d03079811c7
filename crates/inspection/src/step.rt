// One step through an order file.
ghost use Rattle.std.specs.Prelude.{◌≡◌, ◌<◌, ◌≤◌, length, IfSome};
ghost use Rattle.inspection.specs.Findings.{judged, found};

use crate::findings::Finding;
use crate::refusals::Refusal;
use order_file::{Order, read_order};

// An order that was read comes back if an operand is not lawful.
fn judge(order: Order) -> Result<Order, Refusal>
    ensures judged { result ≡ judged order }
{
    order.check()?;
    Ok(order)
}

// What stands at this place of the file: nothing at the end and past it.
pub fn inspect_order(file: &[u8], place: usize) -> Option<Finding>
    ensures finding { result ≡ found file.now place }
    ensures onward { IfSome result (λ finding. place < finding.next) }
    ensures within { IfSome result (λ finding. finding.next ≤ length file.now) }
{
    if place >= file.len() {
        return None;
    }
    let bytes = &file[place..];
    Some(match read_order(bytes, place) {
        Ok((order, rest)) => Finding {
            order: judge(order),
            next: file.len() - rest.len(),
        },
        Err(fault) => Finding {
            order: Err(fault.into()),
            next: file.len(),
        },
    })
}
