// The two kinds of key: accounts, and devices.
ghost use Rattle.std.specs.Prelude.{◌≡◌};
ghost use Rattle.figures.specs.Accounts.{account_order};
ghost use Rattle.figures.specs.declared.names.BookName.TheVariants.{Accounts, Devices};
ghost use Rattle.books.specs.Keys.{device_order, mixed, packed, account_spread};
ghost use Rattle.figures.proofs.Derived.{account_cmp};
ghost use Rattle.figures.proofs.Orders.{account_order_total};
ghost use Rattle.books.specs.Numbers.{device_cmp, device_order_total};

use crate::keys::Key;
use figures::{Account, BookName, Device};

const GOLDEN: u64 = 11_400_714_819_323_198_485;

fn mix(figure: u64) -> u64
    ensures mixed { result ≡ mixed figure }
{
    figure.wrapping_mul(GOLDEN) / 4_294_967_296
}

fn pack(account: Account) -> u64
    ensures packed { result ≡ packed account }
{
    let (first, second) = account.letters();
    let letters = u16::from_be_bytes([first, second]);
    u64::from(letters) * 4_294_967_296 + u64::from(account.number())
}

impl Key for Account {
    type Plain = Account;

    ghost plain = { λ a. a };

    ghost order = { account_order };

    ghost spread = { account_spread };

    ghost BOOK = { Accounts };

    const BOOK: BookName = BookName::Accounts;

    ghost compares = { account_cmp };

    ghost total = { account_order_total };

    fn to_plain(self) -> Account {
        self
    }

    fn hashed(key: Account) -> u64 {
        mix(pack(key))
    }
}

// The rows keep the bare digits, which a `Device` has under the check-digit rule.
impl Key for Device {
    type Plain = u64;

    ghost plain = { λ d. d.digits };

    ghost order = { device_order };

    ghost spread = { mixed };

    ghost BOOK = { Devices };

    const BOOK: BookName = BookName::Devices;

    ghost compares = { device_cmp };

    ghost total = { device_order_total };

    fn to_plain(self) -> u64 {
        self.digits()
    }

    fn hashed(key: u64) -> u64 {
        mix(key)
    }
}
