// Declarations: the energy of a period becomes numbered certificates, held by an account.
ghost use Rattle.std.specs.Prelude.{◌≡◌, true, false, is_ok, if◌then◌else◌, nat_lt};
ghost use Rattle.books.specs.Changes.{posted};
ghost use Rattle.books.specs.declared.changes.Change.TheVariants.{Up};
ghost use Rattle.order_file.specs.Checked.{plain_declaration};
ghost use Rattle.register.specs.Bookings.{declaration, entry, lay_into};
ghost use Rattle.register.specs.Checks.{declaration_checks};
ghost use Rattle.register.specs.Faults.{fault_in, first_fault};
ghost use Rattle.register.specs.Issues.{Finds, Reckoned, day_checks, issuing, origin_of, period_of};
ghost use Rattle.register.specs.Settled.{Judged, Settles, issued_count, map_of, register_on};
ghost use Rattle.register.specs.State.{is_account};
ghost use Rattle.register.specs.declared.rows.Standing.TheVariants.{Held};

use crate::checks::check_member;
use crate::day::OpenDay;
use crate::faults::Fault;
use crate::issues::Issue;
use crate::places::check_places;
use crate::registers::Register;
use crate::rows::{Origin, Period, Standing};
use crate::tables::Tables;
use books::{Book, Change, Posting, post};
use calendar::last_valid_day;
use figures::{Account, CertificateCount, Device};
use order_file::{Declaration, Declare};

// Production has ended before today, and its certificates are in their term.
fn check_days(today: u32, last: u32) -> Result<(), Fault>
    ensures verdict { fault_in result ≡ first_fault (day_checks today last) }
{
    if last >= today {
        return Err(Fault::NotYetProduced { day: last });
    }
    let last_valid = last_valid_day(last);
    if last_valid < today {
        return Err(Fault::PastTerm {
            last_valid,
            // A declared period has no number yet: the refusal returns 0.
            number: 0,
        });
    }
    Ok(())
}

impl OpenDay {
    // The checks of a declaration, in their order, before anything changes.
    fn judge_declaration<AccountBook: Book<Account>, DeviceBook: Book<Device>>(
        &self,
        register: &Register<'_, AccountBook, DeviceBook>,
        order: Declare,
    ) -> Result<(Declaration, Issue), Fault>
        ensures judged { Judged (declaration_checks order (register_on AccountBook.Book.meaning DeviceBook.Book.meaning true self.now.figures register.now)) (Reckoned order (register_on AccountBook.Book.meaning DeviceBook.Book.meaning true self.now.figures register.now) register.now.tables) result }
    {
        let declaration = order.check()?;
        check_member(&register.devices, declaration.device)?;
        check_member(&register.accounts, declaration.account)?;
        check_days(self.figures.date, declaration.days.last)?;
        let issue = Issue::of(&register.devices, self.figures.last_number, declaration);
        check_places(&register.tables, issue)?;
        Ok((declaration, issue))
    }

    // The certificates that result are counted in the answer. The period is laid down even if there are none.
    pub(crate) fn declare<AccountBook: Book<Account>, DeviceBook: Book<Device>>(
        &mut self,
        register: &mut Register<'_, AccountBook, DeviceBook>,
        order: Declare,
    ) -> Result<CertificateCount, Fault>
        ensures settles { Settles (declaration_checks order) (issued_count order) (declaration order) (register_on AccountBook.Book.meaning DeviceBook.Book.meaning true self.old.figures register.old) result (register_on AccountBook.Book.meaning DeviceBook.Book.meaning true self.new.figures register.new) }
        ensures refusal_leaves_day { is_ok result ≡ false → self.new ≡ self.old }
        ensures refusal_leaves_accounts { is_ok result ≡ false → register.new.accounts ≡ register.old.accounts }
        ensures refusal_leaves_devices { is_ok result ≡ false → register.new.devices ≡ register.old.devices }
        ensures refusal_leaves_tables { is_ok result ≡ false → register.new.tables ≡ register.old.tables }
    {
        let (declaration, issue) = self.judge_declaration(register, order)?;
        lay_down(&mut register.tables, declaration, issue);
        credit(&mut register.accounts, declaration.account, issue.count);
        let _ = register
            .devices
            .write_totals(declaration.device, issue.left.0, issue.issued);
        self.figures.last_number = issue.last_after(self.figures.last_number);
        Ok(issue.count)
    }
}

// The period in its table; and if certificates result, where they come from and that the account holds them.
fn lay_down(tables: &mut Tables<'_>, declaration: Declaration, issue: Issue)
    requires places { Finds issue tables.old }
    ensures periods { map_of tables.new.periods ≡ lay_into (entry issue.period.first issue.period.last (period_of (plain_declaration declaration))) (map_of tables.old.periods) }
    ensures origins { map_of tables.new.origins ≡ (if issuing issue then lay_into (entry issue.first.0 issue.last.0 (origin_of (plain_declaration declaration))) (map_of tables.old.origins) else map_of tables.old.origins) }
    ensures standings { map_of tables.new.standings ≡ (if issuing issue then lay_into (entry issue.first.0 issue.last.0 (Held declaration.account)) (map_of tables.old.standings) else map_of tables.old.standings) }
    ensures offers { tables.new.offers.now ≡ tables.old.offers.now }
    ensures cancellations { tables.new.cancellations.now ≡ tables.old.cancellations.now }
{
    let energy = declaration.energy;
    let _ = tables.periods.lay(issue.period, Period { energy });
    if issue.is_issuing() {
        let origin = Origin {
            device: declaration.device.digits(),
            first_day: declaration.days.first,
            last_day: declaration.days.last,
        };
        let _ = tables.origins.lay(issue.numbers(), origin);
        let _ = tables
            .standings
            .lay(issue.numbers(), Standing::Held(declaration.account));
    }
}

// The holder's total rises by what is issued.
fn credit<AccountBook: Book<Account>>(
    accounts: &mut AccountBook,
    holder: Account,
    issued: CertificateCount,
)
    ensures after { AccountBook.Book.meaning accounts.new ≡ (if nat_lt 0 issued.0 then posted (is_account holder) (Up issued.0) (Up 0) (AccountBook.Book.meaning accounts.old) else AccountBook.Book.meaning accounts.old) }
{
    if issued.0 > 0 {
        post(
            accounts,
            Posting {
                key: holder,
                first: Change::Up(issued.0),
                second: Change::Up(0),
            },
        );
    }
}
