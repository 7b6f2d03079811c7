// The answers to an offer: its receiver accepts it, or its sender recalls it.
ghost use Rattle.std.specs.Prelude.{◌≡◌, ℕ, ◌-◌, ◌<◌, ◌≤◌, true, false, length, is_ok, IfOk, Some, OnOk, slice_set};
ghost use Rattle.books.specs.Changes.{posted};
ghost use Rattle.books.specs.Ledger.{present};
ghost use Rattle.books.specs.declared.changes.Change.TheVariants.{Up, Down};
ghost use Rattle.range_map.specs.Map.{in_use, nth};
ghost use Rattle.register.specs.Answers.{answer_checks, answered_by, offer_at, overdue_under, party_of, past_term};
ghost use Rattle.register.specs.Bookings.{acceptance, recall, remake_in};
ghost use Rattle.register.specs.Checks.{acceptance_checks, recall_checks, still_open_check};
ghost use Rattle.register.specs.Faults.{fault_in, first_fault, unless};
ghost use Rattle.register.specs.Holdings.{accepted, counted, first_overdue, given_back, recalled, under_offer};
ghost use Rattle.register.specs.Settled.{Settles, map_of, register_on};
ghost use Rattle.register.specs.State.{is_account};
ghost use Rattle.register.specs.declared.faults.Fault.TheVariants as fault;
ghost use Rattle.register.specs.declared.answers.OfferCall.TheVariants as offerCall;
ghost use Rattle.register.specs.declared.rows.Offer.{Offer as OfferRow};
ghost use Rattle.register.specs.declared.rows.OfferState.TheVariants as inThe;

use crate::checks::check_member;
use crate::counts::{count_picked, is_given_back};
use crate::day::{DayFigures, OpenDay};
use crate::faults::Fault;
use crate::registers::Register;
use crate::remakes::{Acceptance, Recall};
use crate::rows::{Offer, OfferState, Standing};
use crate::terms::Today;
use books::{Book, Change, Posting, post, post_both};
use figures::{Account, Device, MAX_MEMBERS};
use order_file::{AcceptOffer, OfferAnswer, RecallOffer};
use range_map::Entry;

// An enum and no closure for each call: whose the call is, and what becomes of the offer, are told of both
// calls side by side.
#[derive(Clone, Copy, PartialEq, Eq, Debug)]
pub(crate) enum OfferCall {
    Accept,
    Recall,
}

// What becomes of an offer, by its state and the call; a closed one stays as it is. One match on both
// shows every case beside the others, which a closure for each call would part.
fn answer_offer(offer: &mut Offer, call: OfferCall)
    ensures answered { offer.new ≡ answered_by call offer.old }
{
    match (offer.state, call) {
        (OfferState::Open, OfferCall::Accept) => offer.state = OfferState::Accepted,
        (OfferState::Open, OfferCall::Recall) => offer.state = OfferState::Recalled,
        (OfferState::Accepted | OfferState::Recalled, _) => {}
    }
}

// The offer of that number: not 0, made, and within its table. The count is the day's, which outlives the
// lent rows, so the two come apart.
fn find_offer(offers: &[Offer], made: u32, number: u32) -> Option<Offer>
    ensures found { result ≡ offer_at number made offers.now }
{
    if number > made || number as usize > MAX_MEMBERS {
        return None;
    }
    let row = number.checked_sub(1)?;
    offers.get(row as usize).copied()
}

// The receiver accepts, the sender recalls.
fn check_party(offer: Offer, call: OfferCall, account: Account) -> Result<(), Fault>
    ensures verdict { fault_in result ≡ unless (is_account account (party_of call offer)) (fault.WrongParty account) }
{
    let party = match call {
        OfferCall::Accept => offer.to,
        OfferCall::Recall => offer.from,
    };
    if account != party {
        return Err(Fault::WrongParty { account });
    }
    Ok(())
}

fn check_open(state: OfferState) -> Result<(), Fault>
    ensures verdict { fault_in result ≡ still_open_check state }
    ensures open { OnOk result (state ≡ inThe.Open) }
{
    match state {
        OfferState::Open => Ok(()),
        OfferState::Accepted | OfferState::Recalled => Err(Fault::OfferClosed { state }),
    }
}

fn overdue_under(today: Today<'_, '_>, offer: u32, entry: Entry<Standing>) -> Option<u32>
    ensures overdue { result ≡ overdue_under offer today.entry.date (in_use today.entry.origins.now) entry }
{
    if !entry.payload.is_offered_under(offer) {
        return None;
    }
    today.overdue(entry.first)
}

// In the row of its number. That there is such a row is known of the lent rows and the day's count together,
// so its callers owe it.
fn answer_in(offers: &mut [Offer], number: u32, call: OfferCall)
    requires numbered { 1 ≤ number }
    requires within { number - 1 < length offers.old }
    ensures answered { (f : OfferRow) → nth (number - 1) offers.old ≡ Some f → offers.new ≡ slice_set offers.old (number - 1) (answered_by call f) }
{
    answer_offer(&mut offers[number as usize - 1], call);
}

// No entry under the offer is past its term, or else the first that is.
fn check_in_term(today: Today<'_, '_>, offer: u32, entries: &[Entry<Standing>]) -> Result<(), Fault>
    ensures verdict { fault_in result ≡ past_term (first_overdue offer today.entry.date (in_use today.entry.origins.now) entries.now) }
{
    for entry in entries {
        if let Some(last_valid) = overdue_under(today, offer, *entry) {
            return Err(Fault::PastTerm {
                last_valid,
                number: entry.first,
            });
        }
    }
    Ok(())
}

// The checks that both answers share, and the offer's record.
fn judge_answer<AccountBook: Book<Account>>(
    accounts: &AccountBook,
    offers: &[Offer],
    made: u32,
    answer: OfferAnswer,
    call: OfferCall,
) -> Result<Offer, Fault>
    ensures verdict { fault_in result ≡ first_fault (answer_checks call answer.account answer.offer (present (is_account answer.account) (AccountBook.Book.meaning accounts.now).members) (offer_at answer.offer made offers.now)) }
    ensures on_record { IfOk result (λ f. offer_at answer.offer made offers.now ≡ Some f) }
    ensures open { IfOk result (λ f. f.state ≡ inThe.Open) }
{
    check_member(accounts, answer.account)?;
    let offer = find_offer(offers, made, answer.offer).ok_or(Fault::NoSuchOffer {
        offer: answer.offer,
    })?;
    check_party(offer, call, answer.account)?;
    check_open(offer.state)?;
    Ok(offer)
}

// All that an acceptance books. The count is of the standings as they were.
fn book_acceptance<AccountBook: Book<Account>, DeviceBook>(
    register: &mut Register<'_, AccountBook, DeviceBook>,
    number: u32,
    offer: Offer,
)
    requires numbered { 1 ≤ number }
    requires within { number - 1 < length register.old.tables.offers.now }
    ensures totals { AccountBook.Book.meaning register.new.accounts ≡ posted (is_account offer.to) (Up (counted (under_offer number) (in_use register.old.tables.standings))) (Up 0) (posted (is_account offer.from) (Up 0) (Down (counted (under_offer number) (in_use register.old.tables.standings))) (AccountBook.Book.meaning register.old.accounts)) }
    ensures standings { map_of register.new.tables.standings ≡ remake_in (accepted number offer.to) (map_of register.old.tables.standings) }
    ensures answered { (f : OfferRow) → nth (number - 1) register.old.tables.offers.now ≡ Some f → register.new.tables.offers.now ≡ slice_set register.old.tables.offers.now (number - 1) (answered_by offerCall.Accept f) }
    ensures devices_stay { register.new.devices ≡ register.old.devices }
    ensures periods_stay { register.new.tables.periods ≡ register.old.tables.periods }
    ensures origins_stay { register.new.tables.origins ≡ register.old.tables.origins }
    ensures cancellations_stay { register.new.tables.cancellations ≡ register.old.tables.cancellations }
{
    let tables = &mut register.tables;
    let count = count_picked(tables.standings.entries(), |entry| {
        entry.payload.is_offered_under(number)
    });
    post_both(
        &mut register.accounts,
        Posting {
            key: offer.from,
            first: Change::Up(0),
            second: Change::Down(count),
        },
        Posting {
            key: offer.to,
            first: Change::Up(count),
            second: Change::Up(0),
        },
    );
    tables.standings.remake(&Acceptance {
        offer: number,
        receiver: offer.to,
    });
    answer_in(tables.offers, number, OfferCall::Accept);
}

// All that a recall books. The counts are of the standings as they were.
fn book_recall<AccountBook: Book<Account>, DeviceBook>(
    register: &mut Register<'_, AccountBook, DeviceBook>,
    date: u32,
    number: u32,
    offer: Offer,
)
    requires numbered { 1 ≤ number }
    requires within { number - 1 < length register.old.tables.offers.now }
    ensures totals { AccountBook.Book.meaning register.new.accounts ≡ posted (is_account offer.from) (Up (counted (given_back number date (in_use register.old.tables.origins)) (in_use register.old.tables.standings))) (Down (counted (under_offer number) (in_use register.old.tables.standings))) (AccountBook.Book.meaning register.old.accounts) }
    ensures standings { map_of register.new.tables.standings ≡ remake_in (recalled number offer.from date (in_use register.old.tables.origins)) (map_of register.old.tables.standings) }
    ensures answered { (f : OfferRow) → nth (number - 1) register.old.tables.offers.now ≡ Some f → register.new.tables.offers.now ≡ slice_set register.old.tables.offers.now (number - 1) (answered_by offerCall.Recall f) }
    ensures devices_stay { register.new.devices ≡ register.old.devices }
    ensures periods_stay { register.new.tables.periods ≡ register.old.tables.periods }
    ensures origins_stay { register.new.tables.origins ≡ register.old.tables.origins }
    ensures cancellations_stay { register.new.tables.cancellations ≡ register.old.tables.cancellations }
{
    let tables = &mut register.tables;
    let today = Today {
        date,
        origins: &tables.origins,
    };
    let back = count_picked(tables.standings.entries(), |entry| {
        is_given_back(entry, number, today)
    });
    let count = count_picked(tables.standings.entries(), |entry| {
        entry.payload.is_offered_under(number)
    });
    post(
        &mut register.accounts,
        Posting {
            key: offer.from,
            first: Change::Up(back),
            second: Change::Down(count),
        },
    );
    tables.standings.remake(&Recall {
        offer: number,
        sender: offer.from,
        today,
    });
    answer_in(tables.offers, number, OfferCall::Recall);
}

// An acceptance also wants every entry under the offer in term.
fn judge_acceptance<AccountBook: Book<Account>, DeviceBook: Book<Device>>(
    day: DayFigures,
    register: &Register<'_, AccountBook, DeviceBook>,
    order: AcceptOffer,
) -> Result<Offer, Fault>
    ensures verdict { fault_in result ≡ first_fault (acceptance_checks order (register_on AccountBook.Book.meaning DeviceBook.Book.meaning true day register.now)) }
    ensures on_record { IfOk result (λ f. offer_at order.offer day.offers register.now.tables.offers.now ≡ Some f) }
    ensures open { IfOk result (λ f. f.state ≡ inThe.Open) }
{
    let answer = order.check()?;
    let offer = judge_answer(
        &register.accounts,
        register.tables.offers,
        day.offers,
        answer,
        OfferCall::Accept,
    )?;
    let today = Today {
        date: day.date,
        origins: &register.tables.origins,
    };
    check_in_term(today, answer.offer, register.tables.standings.entries())?;
    Ok(offer)
}

// A recall is booked in term and past it.
fn judge_recall<AccountBook: Book<Account>, DeviceBook: Book<Device>>(
    day: DayFigures,
    register: &Register<'_, AccountBook, DeviceBook>,
    order: RecallOffer,
) -> Result<Offer, Fault>
    ensures verdict { fault_in result ≡ first_fault (recall_checks order (register_on AccountBook.Book.meaning DeviceBook.Book.meaning true day register.now)) }
    ensures on_record { IfOk result (λ f. offer_at order.offer day.offers register.now.tables.offers.now ≡ Some f) }
    ensures open { IfOk result (λ f. f.state ≡ inThe.Open) }
{
    let answer = order.check()?;
    judge_answer(
        &register.accounts,
        register.tables.offers,
        day.offers,
        answer,
        OfferCall::Recall,
    )
}

impl OpenDay {
    // The receiver accepts: every entry under the offer is held by the receiver.
    pub(crate) fn accept<AccountBook: Book<Account>, DeviceBook: Book<Device>>(
        &mut self,
        register: &mut Register<'_, AccountBook, DeviceBook>,
        order: AcceptOffer,
    ) -> Result<(), Fault>
        ensures settles { Settles (acceptance_checks order) (λ _. tt) (acceptance order) (register_on AccountBook.Book.meaning DeviceBook.Book.meaning true self.old.figures register.old) result (register_on AccountBook.Book.meaning DeviceBook.Book.meaning true self.new.figures register.new) }
        ensures leaves_day { self.new ≡ self.old }
        ensures refusal_leaves_accounts { is_ok result ≡ false → register.new.accounts ≡ register.old.accounts }
        ensures leaves_devices { register.new.devices ≡ register.old.devices }
        ensures refusal_leaves_tables { is_ok result ≡ false → register.new.tables ≡ register.old.tables }
    {
        let day = self.figures;
        let offer = judge_acceptance(day, register, order)?;
        book_acceptance(register, order.offer, offer);
        Ok(())
    }

    // The sender recalls: every entry under the offer goes back to the sender, or expires.
    pub(crate) fn recall<AccountBook: Book<Account>, DeviceBook: Book<Device>>(
        &mut self,
        register: &mut Register<'_, AccountBook, DeviceBook>,
        order: RecallOffer,
    ) -> Result<(), Fault>
        ensures settles { Settles (recall_checks order) (λ _. tt) (recall order) (register_on AccountBook.Book.meaning DeviceBook.Book.meaning true self.old.figures register.old) result (register_on AccountBook.Book.meaning DeviceBook.Book.meaning true self.new.figures register.new) }
        ensures leaves_day { self.new ≡ self.old }
        ensures refusal_leaves_accounts { is_ok result ≡ false → register.new.accounts ≡ register.old.accounts }
        ensures leaves_devices { register.new.devices ≡ register.old.devices }
        ensures refusal_leaves_tables { is_ok result ≡ false → register.new.tables ≡ register.old.tables }
    {
        let day = self.figures;
        let offer = judge_recall(day, register, order)?;
        book_recall(register, day.date, order.offer, offer);
        Ok(())
    }
}
