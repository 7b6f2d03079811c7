// What becomes of an entry when an offer is accepted or recalled, and when a day opens.
ghost use Rattle.std.specs.Prelude.{◌≡◌};
ghost use Rattle.range_map.specs.Map.{in_use};
ghost use Rattle.register.specs.Holdings.{accepted, recalled, expired};

use crate::rows::Standing;
use crate::terms::Today;
use figures::Account;
use range_map::{Entry, Remake};

// An acceptance: the receiver holds what stood under the offer.
#[derive(Drop)]
pub(crate) struct Acceptance {
    pub(crate) offer: u32,
    pub(crate) receiver: Account,
}

// Each method repeats the clause of its trait: where an entry is an argument, the check cannot give it yet.
impl Remake<Standing> for Acceptance {
    ghost becoming = { λ s e. accepted s.offer s.receiver e };

    fn becomes(&self, entry: Entry<Standing>) -> Standing
        ensures becomes { result ≡ accepted self.now.offer self.now.receiver entry }
    {
        if entry.payload.is_offered_under(self.offer) {
            return Standing::Held(self.receiver);
        }
        entry.payload
    }
}

// A recall: the sender holds it again, unless it is past its term.
#[derive(Drop)]
pub(crate) struct Recall<'a, 'b> {
    pub(crate) offer: u32,
    pub(crate) sender: Account,
    pub(crate) today: Today<'a, 'b>,
}

impl Remake<Standing> for Recall<'_, '_> {
    ghost becoming = { λ s e. recalled s.offer s.sender s.today.date (in_use s.today.origins.now) e };

    fn becomes(&self, entry: Entry<Standing>) -> Standing
        ensures becomes { result ≡ recalled self.now.offer self.now.sender self.now.today.date (in_use self.now.today.origins.now) entry }
    {
        if !entry.payload.is_offered_under(self.offer) {
            return entry.payload;
        }
        if self.today.lapses(entry) {
            return Standing::Expired;
        }
        Standing::Held(self.sender)
    }
}

// A new day: what is held past its term expires.
#[derive(Drop)]
pub(crate) struct Expiry<'a, 'b> {
    pub(crate) today: Today<'a, 'b>,
}

impl Remake<Standing> for Expiry<'_, '_> {
    ghost becoming = { λ s e. expired s.today.date (in_use s.today.origins.now) e };

    fn becomes(&self, entry: Entry<Standing>) -> Standing
        ensures becomes { result ≡ expired self.now.today.date (in_use self.now.today.origins.now) entry }
    {
        if entry.payload.is_held() && self.today.lapses(entry) {
            return Standing::Expired;
        }
        entry.payload
    }
}
