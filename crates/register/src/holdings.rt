// Who holds what, along the standings.
ghost use Rattle.std.specs.Prelude.{◌≡◌};
ghost use Rattle.range_map.specs.Map.{in_use};
ghost use Rattle.register.specs.Checks.{not_held_at};
ghost use Rattle.register.specs.Faults.{fault_in};
ghost use Rattle.register.specs.Holdings.{held_by, unheld};

use crate::faults::Fault;
use crate::rows::Standing;
use figures::Account;
use range_map::{RangeMap, Span, Test};

// Whether the account is the holder.
#[derive(Drop)]
struct Holder {
    account: Account,
}

impl Test<Standing> for Holder {
    ghost passing = { λ s standing. held_by s.account standing };

    fn passes(&self, standing: Standing) -> bool {
        standing.is_held_by(self.account)
    }
}

// Every number from the first to the last is held by the account, or else the first that is not.
#[tactic(auto, unfolding(crate::specs::Holdings::unheld))]
pub(crate) fn check_held(
    standings: &RangeMap<'_, Standing>,
    account: Account,
    range: Span,
) -> Result<(), Fault>
    ensures verdict { fault_in result ≡ not_held_at (unheld account range.first range.last (in_use standings.now)) }
{
    match standings.first_failing(range, &Holder { account }) {
        Some(number) => Err(Fault::NotHeld { number }),
        None => Ok(()),
    }
}
