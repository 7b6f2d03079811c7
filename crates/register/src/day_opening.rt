// Opening a day: the date moves on, and what is held past its term expires.
ghost use Rattle.std.specs.Prelude.{◌≡◌, true, false, ◌&&◌, is_ok, MatchResult, nat_le, nat_lt};
ghost use Rattle.figures.specs.Limits.{last_working_day};
ghost use Rattle.range_map.specs.Map.{in_use};
ghost use Rattle.register.specs.Answers.{Opened, StillClosed, lowered_for};
ghost use Rattle.register.specs.Bookings.{remake_in};
ghost use Rattle.register.specs.Faults.{fault_in, unless};
ghost use Rattle.register.specs.Holdings.{expired as expired_by, lowered as lowered_by, lowered_all};
ghost use Rattle.register.specs.Settled.{map_of, register_on};
ghost use Rattle.register.specs.declared.faults.Fault.TheVariants as fault;

use crate::counts::size_of;
use crate::day::{ClosedDay, DayFigures, OpenDay};
use crate::faults::Fault;
use crate::registers::Register;
use crate::remakes::Expiry;
use crate::rows::Standing;
use crate::terms::Today;
use books::{Book, Change, Posting, post};
use figures::{Account, Device, LAST_DAY};
use order_file::NewDay;
use range_map::Entry;

// A later date, and a working day.
fn check_date(today: u32, date: u32) -> Result<(), Fault>
    ensures verdict { fault_in result ≡ unless (nat_lt today date && nat_le date last_working_day) (fault.DateNotLater date) }
{
    if date <= today || date > LAST_DAY {
        return Err(Fault::DateNotLater { date });
    }
    Ok(())
}

// The holder's total falls by what expires.
fn lower_holder<AccountBook: Book<Account>>(
    accounts: &mut AccountBook,
    standing: Standing,
    expiring: u64,
)
    ensures lowered { AccountBook.Book.meaning accounts.new ≡ lowered_by standing expiring (AccountBook.Book.meaning accounts.old) }
{
    if let Standing::Held(holder) = standing {
        post(
            accounts,
            Posting {
                key: holder,
                first: Change::Down(expiring),
                second: Change::Up(0),
            },
        );
    }
}

fn lower_if_lapsed<AccountBook: Book<Account>>(
    accounts: &mut AccountBook,
    today: Today<'_, '_>,
    entry: Entry<Standing>,
)
    ensures lowered { AccountBook.Book.meaning accounts.new ≡ lowered_for today.entry.date (in_use today.entry.origins.now) entry (AccountBook.Book.meaning accounts.old) }
{
    if today.lapses(entry) {
        lower_holder(accounts, entry.payload, size_of(entry));
    }
}

// Entry by entry, since each has its own holder.
fn lower_all<AccountBook: Book<Account>>(
    accounts: &mut AccountBook,
    today: Today<'_, '_>,
    entries: &[Entry<Standing>],
)
    ensures lowered { AccountBook.Book.meaning accounts.new ≡ lowered_all today.entry.date (in_use today.entry.origins.now) entries.now (AccountBook.Book.meaning accounts.old) }
{
    for entry in entries {
        lower_if_lapsed(accounts, today, *entry);
    }
}

// Totals fall by the standings as they were; then the standings change.
fn expire<AccountBook: Book<Account>, DeviceBook>(
    register: &mut Register<'_, AccountBook, DeviceBook>,
    date: u32,
)
    ensures lowered { AccountBook.Book.meaning register.new.accounts ≡ lowered_all date (in_use register.old.tables.origins) (in_use register.old.tables.standings) (AccountBook.Book.meaning register.old.accounts) }
    ensures expired { map_of register.new.tables.standings ≡ remake_in (expired_by date (in_use register.old.tables.origins)) (map_of register.old.tables.standings) }
    ensures devices_stay { register.new.devices ≡ register.old.devices }
    ensures periods_stay { register.new.tables.periods ≡ register.old.tables.periods }
    ensures origins_stay { register.new.tables.origins ≡ register.old.tables.origins }
    ensures offers_stay { register.new.tables.offers ≡ register.old.tables.offers }
    ensures cancellations_stay { register.new.tables.cancellations ≡ register.old.tables.cancellations }
{
    let tables = &mut register.tables;
    let today = Today {
        date,
        origins: &tables.origins,
    };
    lower_all(&mut register.accounts, today, tables.standings.entries());
    tables.standings.remake(&Expiry { today });
}

impl ClosedDay {
    // The day opens under its date, or stays closed.
    pub(crate) fn open<AccountBook: Book<Account>, DeviceBook: Book<Device>>(
        self,
        register: &mut Register<'_, AccountBook, DeviceBook>,
        order: NewDay,
    ) -> Result<OpenDay, (Fault, ClosedDay)>
        ensures settles { MatchResult result (λ day. Opened order (register_on AccountBook.Book.meaning DeviceBook.Book.meaning false self.figures register.old) (register_on AccountBook.Book.meaning DeviceBook.Book.meaning true day.figures register.new)) (λ refused. StillClosed order (register_on AccountBook.Book.meaning DeviceBook.Book.meaning false self.figures register.old) refused.0 self.figures refused.1.figures) }
        ensures refusal_leaves_accounts { is_ok result ≡ false → register.new.accounts ≡ register.old.accounts }
        ensures leaves_devices { register.new.devices ≡ register.old.devices }
        ensures refusal_leaves_tables { is_ok result ≡ false → register.new.tables ≡ register.old.tables }
    {
        let ClosedDay { figures } = self;
        check_date(figures.date, order.date).map_err(|fault| (fault, ClosedDay { figures }))?;
        expire(register, order.date);
        Ok(OpenDay {
            figures: DayFigures {
                date: order.date,
                ..figures
            },
        })
    }
}
