// What every list of calls comes to: the tables agree with what is reckoned from the booked calls alone.
#![tactic(auto)]

ghost use Rattle.reckoning.specs.Agreement.{EveryRunAgrees};

// The reason why the totals agree after any calls: its contract is the theorem.
pub fn every_run_agrees() -> bool
    ensures theorem { EveryRunAgrees }
{
    true
}
