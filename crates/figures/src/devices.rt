// Device numbers (GSRN): 18 digits under GS1's check-digit rule. The type carries the rule, so a
// device number that breaks it cannot exist; tables keep the bare digits.
ghost use Rattle.std.specs.Prelude.{◌≡◌, ◌+◌, ◌*◌, ◌<◌, true, if◌then◌else◌, Some, None};
ghost use Rattle.std.specs.Option.{option_map};
ghost use Rattle.figures.specs.Gs1.{weighted_sum, gs1};

const DIGIT_PAIRS: u32 = 9;

const ABOVE_18_DIGITS: u64 = 1_000_000_000_000_000_000;

#[derive(Clone, Copy, PartialEq, Eq, PartialOrd, Ord, Debug)]
pub struct Device {
    digits: u64,
    ghost lawful: { gs1 digits ≡ true },
}

// A digit in an odd place from the left counts three times.
fn weigh(odd_place: u64, even_place: u64) -> u64
    requires odd_digit { odd_place < 10 }
    requires even_digit { even_place < 10 }
    ensures weight { result ≡ 3 * odd_place + even_place }
{
    3 * odd_place + even_place
}

// Digits in odd places from the left times 3, the others times 1. Of 18 digits the last is in an
// even place, so the pairs come off the right end.
fn weighted_sum(number: u64) -> u64
    ensures sum { result ≡ weighted_sum number }
{
    let mut rest = number;
    let mut sum = 0;
    for _pair in 0..DIGIT_PAIRS {
        sum += weigh(rest / 10 % 10, rest % 10);
        rest = rest / 10 / 10;
    }
    sum
}

impl Device {
    // The device of these digits, exactly if they keep the rule. An `Option`, as at `Account::new`:
    // there is one reason to refuse, so that a `TryFrom` would add an error type that tells nothing.
    pub fn new(digits: u64) -> Option<Device>
        ensures exactly_lawful { option_map (λ d. d.digits) result ≡ (if gs1 digits then Some digits else None) }
    {
        if (1..ABOVE_18_DIGITS).contains(&digits) && weighted_sum(digits) % 10 == 0 {
            Some(Device { digits })
        } else {
            None
        }
    }

    // No From, whose clause would be a relation: contracts name the digits as a function of the device.
    pub fn digits(&self) -> u64
        ensures bare { result ≡ self.now.digits }
        ensures lawful { gs1 result ≡ true }
    {
        self.digits
    }
}
