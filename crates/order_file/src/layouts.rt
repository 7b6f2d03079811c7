// Where the operands of each kind stand, by their distance from the command byte, high byte first:
// each kind of order is read from an array of just its own width.
ghost use Rattle.std.specs.Prelude.{◌≡◌, ◌+◌, ◌^◌, ◌<◌, ◌≤◌, MatchOption, length, take, drop};
ghost use Rattle.order_file.specs.Commands.{width_of};
ghost use Rattle.order_file.specs.Layouts.{bytes_at, account_at, order_of};

use crate::kinds::Kind;
use crate::orders::{
    AcceptOffer, AccountOperand, Cancel, Declare, MakeOffer, NewDay, OpenAccount, Order,
    RecallOffer, RegisterDevice,
};

// The bytes that stand `distance` bytes from the command byte.
fn field<const N: usize>(operands: &[u8], distance: usize) -> [u8; N]
    requires after_command { 1 ≤ distance }
    requires within { distance + N ≤ length operands.now + 1 }
    ensures bytes { result ≡ bytes_at operands.now distance N }
{
    let from = distance - 1;
    let mut field = [0; N];
    field.copy_from_slice(&operands[from..from + N]);
    field
}

fn account_at(operands: &[u8], distance: usize) -> AccountOperand
    requires after_command { 1 ≤ distance }
    requires within { distance + 6 ≤ length operands.now + 1 }
    ensures account { result ≡ account_at operands.now distance }
{
    AccountOperand {
        first: u8::from_be_bytes(field(operands, distance)),
        second: u8::from_be_bytes(field(operands, distance + 1)),
        number: u32::from_be_bytes(field(operands, distance + 2)),
    }
}

impl From<[u8; 6]> for OpenAccount {
    ghost use Rattle.order_file.specs.Layouts.{open_account_of};

    ghost from_gives = { λ operands order. order ≡ open_account_of operands };

    fn from(operands: [u8; 6]) -> OpenAccount {
        OpenAccount {
            account: account_at(&operands, 1),
        }
    }
}

impl From<[u8; 8]> for RegisterDevice {
    ghost use Rattle.order_file.specs.Layouts.{register_device_of};

    ghost from_gives = { λ operands order. order ≡ register_device_of operands };

    fn from(operands: [u8; 8]) -> RegisterDevice {
        RegisterDevice {
            device: u64::from_be_bytes(operands),
        }
    }
}

impl From<[u8; 4]> for NewDay {
    ghost use Rattle.order_file.specs.Layouts.{new_day_of};

    ghost from_gives = { λ operands order. order ≡ new_day_of operands };

    fn from(operands: [u8; 4]) -> NewDay {
        NewDay {
            date: u32::from_be_bytes(operands),
        }
    }
}

impl From<[u8; 30]> for Declare {
    ghost use Rattle.order_file.specs.Layouts.{declare_of};

    ghost from_gives = { λ operands order. order ≡ declare_of operands };

    fn from(operands: [u8; 30]) -> Declare {
        Declare {
            device: u64::from_be_bytes(field(&operands, 1)),
            account: account_at(&operands, 9),
            first_day: u32::from_be_bytes(field(&operands, 15)),
            last_day: u32::from_be_bytes(field(&operands, 19)),
            energy: u64::from_be_bytes(field(&operands, 23)),
        }
    }
}

impl From<[u8; 28]> for MakeOffer {
    ghost use Rattle.order_file.specs.Layouts.{make_offer_of};

    ghost from_gives = { λ operands order. order ≡ make_offer_of operands };

    fn from(operands: [u8; 28]) -> MakeOffer {
        MakeOffer {
            from: account_at(&operands, 1),
            to: account_at(&operands, 7),
            first: u64::from_be_bytes(field(&operands, 13)),
            last: u64::from_be_bytes(field(&operands, 21)),
        }
    }
}

impl From<[u8; 10]> for AcceptOffer {
    ghost use Rattle.order_file.specs.Layouts.{accept_offer_of};

    ghost from_gives = { λ operands order. order ≡ accept_offer_of operands };

    fn from(operands: [u8; 10]) -> AcceptOffer {
        AcceptOffer {
            account: account_at(&operands, 1),
            offer: u32::from_be_bytes(field(&operands, 7)),
        }
    }
}

impl From<[u8; 10]> for RecallOffer {
    ghost use Rattle.order_file.specs.Layouts.{recall_offer_of};

    ghost from_gives = { λ operands order. order ≡ recall_offer_of operands };

    fn from(operands: [u8; 10]) -> RecallOffer {
        RecallOffer {
            account: account_at(&operands, 1),
            offer: u32::from_be_bytes(field(&operands, 7)),
        }
    }
}

impl From<[u8; 48]> for Cancel {
    ghost use Rattle.order_file.specs.Layouts.{cancel_of};

    ghost from_gives = { λ operands order. order ≡ cancel_of operands };

    fn from(operands: [u8; 48]) -> Cancel {
        Cancel {
            account: account_at(&operands, 1),
            first: u64::from_be_bytes(field(&operands, 7)),
            last: u64::from_be_bytes(field(&operands, 15)),
            year: u16::from_be_bytes(field(&operands, 23)),
            beneficiary: field(&operands, 25),
        }
    }
}

// The order that the first bytes write, and the bytes after them, if there are as many. No array is
// wider than `width` says.
fn split<O: From<[u8; W]>, F: FnOnce(O) -> Order, const W: usize>(
    bytes: &[u8],
    order: F,
) -> Option<(Order, &[u8])>
    requires width { W < 2 ^ 63 }
    requires callable { F.IsAlwaysCallable order }
    ensures front { MatchOption result (length bytes.now < W) (λ read. (W ≤ length bytes.now) × ((operands : O) × O.from_gives (take W bytes.now) operands × F.post order operands read.0) × (read.1.now ≡ drop W bytes.now)) }
{
    let (operands, after) = bytes.split_first_chunk()?;
    Some((order(O::from(*operands)), after))
}

// The order of this kind that stands just after its command byte, and the bytes after it, if all of
// its operands are there.
pub(crate) fn split_order(kind: Kind, bytes: &[u8]) -> Option<(Order, &[u8])>
    ensures order { MatchOption result (length bytes.now < width_of kind) (λ read. (width_of kind ≤ length bytes.now) × (read.0 ≡ order_of kind (take (width_of kind) bytes.now)) × (read.1.now ≡ drop (width_of kind) bytes.now)) }
{
    match kind {
        Kind::Account => split(bytes, Order::Account),
        Kind::Device => split(bytes, Order::Device),
        Kind::Day => split(bytes, Order::Day),
        Kind::Declare => split(bytes, Order::Declare),
        Kind::Offer => split(bytes, Order::Offer),
        Kind::Accept => split(bytes, Order::Accept),
        Kind::Recall => split(bytes, Order::Recall),
        Kind::Cancel => split(bytes, Order::Cancel),
    }
}
