// Cancellations: numbers are used up for a beneficiary.
ghost use Rattle.std.specs.Prelude.{◌≡◌, true, false, length, is_ok, slice_set};
ghost use Rattle.order_file.specs.Checked.{plain_cancellation};
ghost use Rattle.register.specs.Bookings.{change_in, cancellation_of, cancellation};
ghost use Rattle.register.specs.Checks.{cancellation_checks};
ghost use Rattle.register.specs.Settled.{map_of, register_on, Judged, Fits, Settles, next_serial};
ghost use Rattle.register.specs.declared.rows.Standing.TheVariants.{Cancelled};

use crate::checks::{RecordTable, check_member};
use crate::day::{DayFigures, OpenDay};
use crate::faults::Fault;
use crate::numbers::{check_numbers, span_of};
use crate::registers::Register;
use crate::rows::{Cancellation, Standing};
use crate::tables::Tables;
use books::{Book, Change, Posting, post};
use figures::{Account, Device, Table};
use order_file::{Cancel, CancellationTerms};

impl OpenDay {
    // The checks of a cancellation, in their order, before anything changes.
    fn judge_cancellation<AccountBook: Book<Account>, DeviceBook: Book<Device>>(
        &self,
        register: &Register<'_, AccountBook, DeviceBook>,
        order: Cancel,
    ) -> Result<CancellationTerms, Fault>
        ensures judged { Judged (cancellation_checks order (register_on AccountBook.Book.meaning DeviceBook.Book.meaning true self.now.figures register.now)) (λ t. (plain_cancellation t ≡ order) × Fits self.now.figures.cancellations (length register.now.tables.cancellations.now) t.numbers.first.0 t.numbers.last.0 register.now.tables.standings) result }
    {
        let terms = order.check()?;
        check_member(&register.accounts, terms.account)?;
        check_numbers(
            &register.tables.standings,
            terms.account,
            terms.numbers,
            RecordTable {
                table: Table::Cancellations,
                used: self.figures.cancellations,
                slots: register.tables.cancellations.len(),
            },
        )?;
        Ok(terms)
    }

    // The numbers are cancelled under the next serial, which is answered; the holder's total falls.
    pub(crate) fn cancel<AccountBook: Book<Account>, DeviceBook: Book<Device>>(
        &mut self,
        register: &mut Register<'_, AccountBook, DeviceBook>,
        order: Cancel,
    ) -> Result<u32, Fault>
        ensures settles { Settles (cancellation_checks order) next_serial (cancellation order) (register_on AccountBook.Book.meaning DeviceBook.Book.meaning true self.old.figures register.old) result (register_on AccountBook.Book.meaning DeviceBook.Book.meaning true self.new.figures register.new) }
        ensures refusal_leaves_day { is_ok result ≡ false → self.new ≡ self.old }
        ensures refusal_leaves_accounts { is_ok result ≡ false → register.new.accounts ≡ register.old.accounts }
        ensures leaves_devices { register.new.devices ≡ register.old.devices }
        ensures refusal_leaves_tables { is_ok result ≡ false → register.new.tables ≡ register.old.tables }
    {
        let terms = self.judge_cancellation(register, order)?;
        let serial = self.figures.cancellations + 1;
        use_up(&mut register.tables, self.figures, serial, terms);
        let count = terms.numbers.count();
        post(
            &mut register.accounts,
            Posting {
                key: terms.account,
                first: Change::Down(count),
                second: Change::Up(0),
            },
        );
        self.figures.cancellations = serial;
        Ok(serial)
    }
}

// The record of the cancellation in its row, and its numbers cancelled under its serial.
fn use_up(tables: &mut Tables<'_>, day: DayFigures, serial: u32, terms: CancellationTerms)
    requires fits { Fits day.cancellations (length tables.old.cancellations.now) terms.numbers.first.0 terms.numbers.last.0 tables.old.standings }
    ensures cancellations { tables.new.cancellations.now ≡ slice_set tables.old.cancellations.now day.cancellations (cancellation_of day.date (plain_cancellation terms)) }
    ensures standings { map_of tables.new.standings ≡ change_in terms.numbers.first.0 terms.numbers.last.0 (Cancelled serial) (map_of tables.old.standings) }
    ensures periods { tables.new.periods ≡ tables.old.periods }
    ensures origins { tables.new.origins ≡ tables.old.origins }
    ensures offers { tables.new.offers.now ≡ tables.old.offers.now }
{
    let beneficiary = terms.beneficiary.bytes;
    tables.cancellations[day.cancellations as usize] = Cancellation {
        account: terms.account,
        first: terms.numbers.first,
        last: terms.numbers.last,
        year: terms.year.year,
        date: day.date,
        beneficiary,
    };
    let _ = tables
        .standings
        .change(span_of(terms.numbers), Standing::Cancelled(serial));
}
