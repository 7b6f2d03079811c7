// Opening an account and registering a device: the key joins its book. Two calls, each under its own name and
// contract; all that they do alike is the book's `add`.
ghost use Rattle.std.specs.Prelude.{◌≡◌, true, false, is_ok};
ghost use Rattle.register.specs.Bookings.{opening, registration};
ghost use Rattle.register.specs.Checks.{opening_checks, registration_checks};
ghost use Rattle.register.specs.Settled.{Settles, register_on, next_account, next_device};

use crate::day::OpenDay;
use crate::faults::Fault;
use crate::registers::Register;
use books::Book;
use figures::{Account, Device};
use order_file::{OpenAccount, RegisterDevice};

impl OpenDay {
    // The account joins its book last; its running number is answered.
    pub(crate) fn open_account<AccountBook: Book<Account>, DeviceBook: Book<Device>>(
        &mut self,
        register: &mut Register<'_, AccountBook, DeviceBook>,
        order: OpenAccount,
    ) -> Result<u64, Fault>
        ensures settles { Settles (opening_checks order) next_account (opening order) (register_on AccountBook.Book.meaning DeviceBook.Book.meaning true self.old.figures register.old) result (register_on AccountBook.Book.meaning DeviceBook.Book.meaning true self.new.figures register.new) }
        ensures leaves_day { self.new ≡ self.old }
        ensures refusal_leaves_accounts { is_ok result ≡ false → register.new.accounts ≡ register.old.accounts }
        ensures leaves_devices { register.new.devices ≡ register.old.devices }
        ensures leaves_tables { register.new.tables ≡ register.old.tables }
    {
        let account = order.check()?;
        let number = register.accounts.add(account)?;
        Ok(number)
    }

    // The device joins its book last; its running number is answered.
    pub(crate) fn register_device<AccountBook: Book<Account>, DeviceBook: Book<Device>>(
        &mut self,
        register: &mut Register<'_, AccountBook, DeviceBook>,
        order: RegisterDevice,
    ) -> Result<u64, Fault>
        ensures settles { Settles (registration_checks order) next_device (registration order) (register_on AccountBook.Book.meaning DeviceBook.Book.meaning true self.old.figures register.old) result (register_on AccountBook.Book.meaning DeviceBook.Book.meaning true self.new.figures register.new) }
        ensures leaves_day { self.new ≡ self.old }
        ensures leaves_accounts { register.new.accounts ≡ register.old.accounts }
        ensures refusal_leaves_devices { is_ok result ≡ false → register.new.devices ≡ register.old.devices }
        ensures leaves_tables { register.new.tables ≡ register.old.tables }
    {
        let device = order.check()?;
        let number = register.devices.add(device)?;
        Ok(number)
    }
}
