// Offers: numbers that one account holds are set aside for another.
ghost use Rattle.std.specs.Prelude.{◌≡◌, true, false, length, is_ok, slice_set};
ghost use Rattle.order_file.specs.Checked.{plain_offer};
ghost use Rattle.register.specs.Bookings.{change_in, offer_of, offering};
ghost use Rattle.register.specs.Checks.{offer_checks, to_itself};
ghost use Rattle.register.specs.Faults.{fault_in};
ghost use Rattle.register.specs.Settled.{map_of, register_on, Judged, Fits, Settles, next_offer};
ghost use Rattle.register.specs.declared.rows.Standing.TheVariants.{Offered};

use crate::checks::{RecordTable, check_member};
use crate::day::OpenDay;
use crate::faults::Fault;
use crate::numbers::{check_numbers, span_of};
use crate::registers::Register;
use crate::rows::{Offer, OfferState, Standing};
use crate::tables::Tables;
use books::{Book, Change, Posting, post};
use figures::{Account, Device, Table};
use order_file::{MakeOffer, OfferTerms};

// Nobody offers to itself.
#[tactic(auto, using(figures::proofs::Derived::account_eq))]
fn check_parties(terms: OfferTerms) -> Result<(), Fault>
    ensures verdict { fault_in result ≡ to_itself terms.from terms.to }
{
    if terms.from == terms.to {
        return Err(Fault::OfferedToItself {
            account: terms.from,
        });
    }
    Ok(())
}

impl OpenDay {
    // The checks of an offer, in their order, before anything changes.
    fn judge_offer<AccountBook: Book<Account>, DeviceBook: Book<Device>>(
        &self,
        register: &Register<'_, AccountBook, DeviceBook>,
        order: MakeOffer,
    ) -> Result<OfferTerms, Fault>
        ensures judged { Judged (offer_checks order (register_on AccountBook.Book.meaning DeviceBook.Book.meaning true self.now.figures register.now)) (λ t. (plain_offer t ≡ order) × Fits self.now.figures.offers (length register.now.tables.offers.now) t.numbers.first.0 t.numbers.last.0 register.now.tables.standings) result }
    {
        let terms = order.check()?;
        check_parties(terms)?;
        check_member(&register.accounts, terms.from)?;
        check_member(&register.accounts, terms.to)?;
        check_numbers(
            &register.tables.standings,
            terms.from,
            terms.numbers,
            RecordTable {
                table: Table::Offers,
                used: self.figures.offers,
                slots: register.tables.offers.len(),
            },
        )?;
        Ok(terms)
    }

    // The numbers are offered under the next offer number, which is answered; both totals of the sender move.
    pub(crate) fn offer<AccountBook: Book<Account>, DeviceBook: Book<Device>>(
        &mut self,
        register: &mut Register<'_, AccountBook, DeviceBook>,
        order: MakeOffer,
    ) -> Result<u32, Fault>
        ensures settles { Settles (offer_checks order) next_offer (offering order) (register_on AccountBook.Book.meaning DeviceBook.Book.meaning true self.old.figures register.old) result (register_on AccountBook.Book.meaning DeviceBook.Book.meaning true self.new.figures register.new) }
        ensures refusal_leaves_day { is_ok result ≡ false → self.new ≡ self.old }
        ensures refusal_leaves_accounts { is_ok result ≡ false → register.new.accounts ≡ register.old.accounts }
        ensures leaves_devices { register.new.devices ≡ register.old.devices }
        ensures refusal_leaves_tables { is_ok result ≡ false → register.new.tables ≡ register.old.tables }
    {
        let terms = self.judge_offer(register, order)?;
        let number = self.figures.offers + 1;
        set_aside(&mut register.tables, self.figures.offers, number, terms);
        let count = terms.numbers.count();
        post(
            &mut register.accounts,
            Posting {
                key: terms.from,
                first: Change::Down(count),
                second: Change::Up(count),
            },
        );
        self.figures.offers = number;
        Ok(number)
    }
}

// The record of an open offer in its row, and its numbers offered under its number.
fn set_aside(tables: &mut Tables<'_>, row: u32, number: u32, terms: OfferTerms)
    requires fits { Fits row (length tables.old.offers.now) terms.numbers.first.0 terms.numbers.last.0 tables.old.standings }
    ensures offers { tables.new.offers.now ≡ slice_set tables.old.offers.now row (offer_of (plain_offer terms)) }
    ensures standings { map_of tables.new.standings ≡ change_in terms.numbers.first.0 terms.numbers.last.0 (Offered number) (map_of tables.old.standings) }
    ensures periods { tables.new.periods ≡ tables.old.periods }
    ensures origins { tables.new.origins ≡ tables.old.origins }
    ensures cancellations { tables.new.cancellations.now ≡ tables.old.cancellations.now }
{
    tables.offers[row as usize] = Offer {
        from: terms.from,
        to: terms.to,
        first: terms.numbers.first,
        last: terms.numbers.last,
        state: OfferState::Open,
    };
    let _ = tables
        .standings
        .change(span_of(terms.numbers), Standing::Offered(number));
}
