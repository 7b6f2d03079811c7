// What a caller may have asked of the payloads of a map, and what it may have made of its entries. Traits and no
// closures: the ghost member is all that a contract needs to know of either, so that each call answers by one
// equation, for every input, and asks nothing of its caller.
ghost use Rattle.std.specs.Prelude.{◌≡◌, Bool};
ghost use Rattle.range_map.specs.declared.entry.Entry.{Entry as EntryOf};

use crate::entry::{Entry, Payload};

pub trait Test<P: Payload> {
    ghost passing: { Self → P → Bool };

    fn passes(&self, payload: P) -> bool
        ensures passes { result ≡ passing self.now payload };
}

pub trait Remake<P: Payload> {
    ghost becoming: { Self → EntryOf P → P };

    // The payload that an entry gets.
    fn becomes(&self, entry: Entry<P>) -> P
        ensures becomes { result ≡ becoming self.now entry };
}
