// The five tables of a register, over slots that the caller lends.
ghost use Rattle.std.specs.Prelude.{◌≡◌, [], length};
ghost use Rattle.range_map.specs.Map.{in_use, slots_of};

use crate::rows::{Cancellation, Offer, Origin, Period, Standing};
use range_map::{Entry, RangeMap};

#[derive(Drop)]
pub struct Tables<'a> {
    pub periods: RangeMap<'a, Period>,
    pub origins: RangeMap<'a, Origin>,
    pub standings: RangeMap<'a, Standing>,
    // How many of these are made is a figure of the day, which a closed day keeps without the tables.
    pub offers: &'a mut [Offer],
    pub cancellations: &'a mut [Cancellation],
}

impl<'a> Tables<'a> {
    // The tables of a new register: empty maps over these slots, whatever they hold.
    pub fn new(
        periods: &'a mut [Entry<Period>],
        origins: &'a mut [Entry<Origin>],
        standings: &'a mut [Entry<Standing>],
        offers: &'a mut [Offer],
        cancellations: &'a mut [Cancellation],
    ) -> Tables<'a>
        ensures no_periods { in_use result.periods ≡ [] }
        ensures no_origins { in_use result.origins ≡ [] }
        ensures no_standings { in_use result.standings ≡ [] }
        ensures period_slots { slots_of result.periods ≡ length periods.old }
        ensures origin_slots { slots_of result.origins ≡ length origins.old }
        ensures standing_slots { slots_of result.standings ≡ length standings.old }
        ensures offers_as_lent { result.offers.now ≡ offers.old }
        ensures cancellations_as_lent { result.cancellations.now ≡ cancellations.old }
    {
        Tables {
            periods: RangeMap::new(periods),
            origins: RangeMap::new(origins),
            standings: RangeMap::new(standings),
            offers,
            cancellations,
        }
    }
}
