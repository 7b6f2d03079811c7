// The nine calls as values, with plain operands: what a list of calls is made of.
use order_file::{
    AcceptOffer, Cancel, Declare, MakeOffer, NewDay, OpenAccount, RecallOffer, RegisterDevice,
};

// Cases of its own and no `Order` inside: a file has no order that closes a day.
#[derive(Clone, Copy, PartialEq, Eq, Debug)]
pub enum Call {
    Account(OpenAccount),
    Device(RegisterDevice),
    Declaration(Declare),
    Offer(MakeOffer),
    Acceptance(AcceptOffer),
    Recall(RecallOffer),
    Cancellation(Cancel),
    DayOpening(NewDay),
    DayClosing,
}
