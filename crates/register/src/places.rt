// Whether a declaration finds its places: free positions, and a slot in each table that it needs.
ghost use Rattle.std.specs.Prelude.{◌≡◌, ◌+◌, ◌^◌, ◌<◌, ◌≤◌, ◌++◌};
ghost use Rattle.register.specs.Checks.{meets, has_slot};
ghost use Rattle.register.specs.Faults.{fault_in, first_fault};
ghost use Rattle.register.specs.Issues.{Finds, free_checks, slot_checks};
ghost use Rattle.register.specs.Settled.{Judged, map_of};

use crate::faults::Fault;
use crate::issues::Issue;
use crate::tables::Tables;
use figures::MAX_CERTIFICATE_NUMBER;
use range_map::{MapFault, Payload, RangeMap, Span};

// The range meets no entry.
fn check_free<P: Payload>(map: &RangeMap<'_, P>, range: Span) -> Result<(), Fault>
    ensures verdict { fault_in result ≡ meets range.first range.last (map_of map.now) }
{
    match map.taken(range) {
        Some(first) => Err(Fault::from(MapFault::Taken { first })),
        None => Ok(()),
    }
}

// The map has a slot for one entry more.
fn check_slot<P: Payload>(map: &RangeMap<'_, P>) -> Result<(), Fault>
    ensures verdict { fault_in result ≡ has_slot P.TABLE (map_of map.now) }
{
    if map.full() {
        return Err(Fault::from(MapFault::Full { table: P::TABLE }));
    }
    Ok(())
}

// Numbers are looked at only where certificates result.
fn check_all_free(tables: &Tables<'_>, issue: Issue) -> Result<(), Fault>
    ensures verdict { fault_in result ≡ first_fault (free_checks issue (map_of tables.now.periods) (map_of tables.now.origins) (map_of tables.now.standings)) }
{
    check_free(&tables.periods, issue.period)?;
    if issue.is_issuing() {
        check_free(&tables.origins, issue.numbers())?;
        check_free(&tables.standings, issue.numbers())?;
    }
    if issue.last.0 > MAX_CERTIFICATE_NUMBER {
        return Err(Fault::NumbersExhausted {
            wanted: issue.count.0,
        });
    }
    Ok(())
}

fn check_slots(tables: &Tables<'_>, issue: Issue) -> Result<(), Fault>
    ensures verdict { fault_in result ≡ first_fault (slot_checks issue (map_of tables.now.periods) (map_of tables.now.origins) (map_of tables.now.standings)) }
{
    check_slot(&tables.periods)?;
    if issue.is_issuing() {
        check_slot(&tables.origins)?;
        check_slot(&tables.standings)?;
    }
    Ok(())
}

// Free positions first, then slots; what passes finds its place when it is laid down.
pub(crate) fn check_places(tables: &Tables<'_>, issue: Issue) -> Result<(), Fault>
    requires period_rises { issue.period.first ≤ issue.period.last }
    requires period_within { issue.period.last < 2 ^ 62 }
    requires as_many_numbers { issue.first.0 + issue.count.0 ≡ issue.last.0 + 1 }
    ensures judged { Judged (free_checks issue (map_of tables.now.periods) (map_of tables.now.origins) (map_of tables.now.standings) ++ slot_checks issue (map_of tables.now.periods) (map_of tables.now.origins) (map_of tables.now.standings)) (λ _. Finds issue tables.now) result }
{
    check_all_free(tables, issue)?;
    check_slots(tables, issue)
}
