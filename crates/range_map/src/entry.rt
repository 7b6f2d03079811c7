// What lies in a slot of a map, and what its payload must tell.
ghost use Rattle.std.specs.Prelude.{◌≡◌, ◌<◌, max, nat_lt};
ghost use Rattle.figures.specs.declared.names.Table.{Table};
ghost use Rattle.range_map.specs.Plain.{below, from};

use figures::Table;

// The positions from `first` to `last`, both included. There may be none: a call refuses such a range as bad.
#[derive(Clone, Copy, PartialEq, Eq, Debug)]
pub struct Span {
    pub first: u64,
    pub last: u64,
}

// The positions from `first` to `last`, both included, have this payload.
#[derive(Clone, Copy, PartialEq, Eq, Debug)]
pub struct Entry<P> {
    pub first: u64,
    pub last: u64,
    pub payload: P,
}

impl<P: Copy> Entry<P> {
    // Whether all of it lies before the position.
    pub(crate) fn ends_before(&self, position: u64) -> bool
        ensures { result ≡ nat_lt self.now.last position }
    {
        self.last < position
    }

    // Whether its first position does.
    pub(crate) fn begins_before(&self, position: u64) -> bool
        ensures { result ≡ nat_lt self.now.first position }
    {
        self.first < position
    }

    // Its first position from the given one on.
    pub(crate) fn first_from(&self, position: u64) -> u64
        ensures { result ≡ max position self.now.first }
    {
        position.max(self.first)
    }

    // Its parts where it is cut before `n`: both keep the payload.
    pub(crate) fn lower_part(self, n: u64) -> Entry<P>
        requires { 0 < n }
        ensures { result ≡ below n self }
    {
        Entry {
            last: n - 1,
            ..self
        }
    }

    pub(crate) fn upper_part(self, n: u64) -> Entry<P>
        ensures { result ≡ from n self }
    {
        Entry { first: n, ..self }
    }
}

// A payload kind belongs to one table of the register, so that a refusal can name it.
pub trait Payload: Copy {
    const TABLE: Table;

    ghost TABLE: { Table };
}
