// The worked samples of the rules, derived from the definitions that the contracts cite.
#![tactic(auto)]

ghost use Rattle.std.specs.Prelude.{◌≡◌, length};
ghost use Rattle.samples.specs.Samples.{AllHold, samples};

fn count() -> usize
    ensures all { result ≡ length samples }
{
    12
}

// How many samples there are; the contract says that every one holds.
pub fn samples_hold() -> usize
    ensures all_hold { AllHold samples }
    ensures count { result ≡ length samples }
{
    count()
}
