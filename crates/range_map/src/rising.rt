// Entries that rise, to read: what every question on them may take as known.
ghost use Rattle.std.specs.Prelude.{◌^◌};
ghost use Rattle.range_map.specs.Plain.{Between_prop, Rising};

use crate::entry::Entry;

#[derive(Drop)]
pub(crate) struct RisingEntries<'a, P> {
    pub(crate) entries: &'a [Entry<P>],
    ghost rising: { Rising entries.now } by { Between_prop 0 (2 ^ 62) entries.now },
}
