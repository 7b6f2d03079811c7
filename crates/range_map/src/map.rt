// The map over lent slots. Its meaning, for the contracts, is the list of its entries in use, `in_use`.
// They rise, no two sharing a position, from `new` on and after every call.
ghost use Rattle.std.specs.Prelude.{◌^◌, ◌≤◌};
ghost use Rattle.range_map.specs.Lent.{entries_in, slots_in};
ghost use Rattle.range_map.specs.Plain.{Between_prop, Rising};

use crate::lent::Lent;

#[derive(Drop)]
pub struct RangeMap<'a, P> {
    pub(crate) inner: Lent<'a, P>,
    ghost fits: { inner.used ≤ slots_in inner },
    ghost rising: { Rising (entries_in inner) } by { Between_prop 0 (2 ^ 62) (entries_in inner) },
}
