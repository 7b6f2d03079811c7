// What offers and cancellations ask of their numbers.
ghost use Rattle.std.specs.Prelude.{◌≡◌, true, [], ◌∷◌, length};
ghost use Rattle.range_map.specs.Map.{in_use, slots_of};
ghost use Rattle.register.specs.Checks.{not_held_at, row_free, slots_for};
ghost use Rattle.register.specs.Holdings.{unheld};
ghost use Rattle.register.specs.Settled.{Judged, Fits};

use crate::checks::RecordTable;
use crate::faults::Fault;
use crate::holdings::check_held;
use crate::rows::Standing;
use figures::Account;
use order_file::NumberRange;
use range_map::{RangeMap, Span};

// The positions of these numbers. A function and no `From`, since both types are of other crates.
pub(crate) fn span_of(numbers: NumberRange) -> Span
    ensures first { result.first ≡ numbers.first.0 }
    ensures last { result.last ≡ numbers.last.0 }
{
    Span {
        first: numbers.first.0,
        last: numbers.last.0,
    }
}

// Every number is held by the account; a slot is free for the record; the cuts find slots.
pub(crate) fn check_numbers(
    standings: &RangeMap<'_, Standing>,
    account: Account,
    numbers: NumberRange,
    records: RecordTable,
) -> Result<(), Fault>
    ensures judged { Judged (not_held_at (unheld account numbers.first.0 numbers.last.0 (in_use standings.now)) ∷ row_free records.table records.used records.slots ∷ slots_for numbers.first.0 numbers.last.0 (slots_of standings.now) (in_use standings.now) ∷ []) (λ _. Fits records.used records.slots numbers.first.0 numbers.last.0 standings.now) result }
{
    let range = span_of(numbers);
    check_held(standings, account, range)?;
    records.check_row()?;
    standings.check_change(range)?;
    Ok(())
}
