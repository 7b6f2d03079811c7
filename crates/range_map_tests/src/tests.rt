ghost use Rattle.std.specs.Prelude.{◌≡◌, if◌then◌else◌, nat_le, nat_lt};
ghost use Rattle.figures.specs.declared.names.Table.TheVariants.{Standings};

use figures::Table;
use range_map::{Entry, MapFault, Payload, RangeMap, Remake, Span, Test};
use std::test::Fail;

#[derive(Clone, Copy, PartialEq, Eq, Debug)]
struct Mark(u8);

impl Payload for Mark {
    const TABLE: Table = Table::Standings;

    ghost TABLE = { Standings };
}

// Passes the marks from `least` on.
#[derive(Drop)]
struct AtLeast {
    least: u8,
}

impl Test<Mark> for AtLeast {
    ghost passing = { λ s mark. nat_le s.least mark.0 };

    fn passes(&self, mark: Mark) -> bool {
        self.least <= mark.0
    }
}

// Every entry that begins past a position gets the mark.
#[derive(Drop)]
struct MarkedPast {
    position: u64,
    mark: Mark,
}

impl Remake<Mark> for MarkedPast {
    ghost becoming = { λ s e. if nat_lt s.position e.first then s.mark else e.payload };

    fn becomes(&self, entry: Entry<Mark>) -> Mark
        ensures becomes { result ≡ (if nat_lt self.now.position entry.first then self.now.mark else entry.payload) }
    {
        if self.position < entry.first {
            self.mark
        } else {
            entry.payload
        }
    }
}

const LAST: u64 = (1 << 62) - 1;

fn span(first: u64, last: u64) -> Span {
    Span { first, last }
}

fn entry(first: u64, last: u64, mark: u8) -> Entry<Mark> {
    Entry {
        first,
        last,
        payload: Mark(mark),
    }
}

#[test]
fn cuts_at_both_ends_of_one_entry(rt: HostRuntime) -> Result<(), Fail> {
    let mut slots = [entry(9, 9, 9); 4];
    let mut map = RangeMap::new(&mut slots);
    map.lay(span(1, 9), Mark(5))?;
    map.change(span(4, 6), Mark(7))?;
    assert_eq!(rt; map.count(), 3);
    assert_eq!(rt; map.entry(0), Some(entry(1, 3, 5)));
    assert_eq!(rt; map.entry(1), Some(entry(4, 6, 7)));
    assert_eq!(rt; map.entry(2), Some(entry(7, 9, 5)));
    assert_eq!(rt; map.entry(3), None);
    Ok(())
}

#[test]
fn a_change_over_three_entries(rt: HostRuntime) -> Result<(), Fail> {
    let mut slots = [entry(0, 0, 0); 8];
    let mut map = RangeMap::new(&mut slots);
    map.lay(span(20, 29), Mark(2))?;
    map.lay(span(30, 39), Mark(3))?;
    map.lay(span(10, 19), Mark(1))?;
    map.change(span(15, 34), Mark(9))?;
    assert_eq!(rt; map.count(), 5);
    assert_eq!(rt; map.get(14), Some(Mark(1)));
    assert_eq!(rt; map.get(15), Some(Mark(9)));
    assert_eq!(rt; map.get(25), Some(Mark(9)));
    assert_eq!(rt; map.get(34), Some(Mark(9)));
    assert_eq!(rt; map.get(35), Some(Mark(3)));
    assert_eq!(rt; map.find(25), Some(entry(20, 29, 9)));
    Ok(())
}

#[test]
fn gaps_are_nothing_and_refuse_a_change(rt: HostRuntime) -> Result<(), Fail> {
    let mut slots = [entry(0, 0, 0); 4];
    let mut map = RangeMap::new(&mut slots);
    map.lay(span(1, 3), Mark(1))?;
    map.lay(span(6, 8), Mark(2))?;
    assert_eq!(rt; map.find(0), None);
    assert_eq!(rt; map.get(4), None);
    assert_eq!(rt;
        map.change(span(2, 7), Mark(9)),
        Err(MapFault::Uncovered { first: 4 })
    );
    assert_eq!(rt;
        map.lay(span(4, 9), Mark(9)),
        Err(MapFault::Taken { first: 6 })
    );
    assert_eq!(rt; map.taken(span(2, 9)), Some(2));
    assert_eq!(rt; map.change(span(5, 4), Mark(9)), Err(MapFault::BadRange));
    assert_eq!(rt; map.count(), 2);
    Ok(())
}

#[test]
fn full_tables_refuse_by_name(rt: HostRuntime) -> Result<(), Fail> {
    let mut slots = [entry(0, 0, 0); 2];
    let mut map = RangeMap::new(&mut slots);
    map.lay(span(1, 3), Mark(1))?;
    assert_eq!(rt;
        map.change(span(2, 2), Mark(9)),
        Err(MapFault::Full {
            table: Table::Standings,
        })
    );
    assert_eq!(rt; map.get(2), Some(Mark(1)));
    map.change(span(1, 1), Mark(9))?;
    assert!(rt; map.full());
    map.change(span(2, 3), Mark(8))?;
    assert_eq!(rt;
        map.lay(span(4, 4), Mark(1)),
        Err(MapFault::Full {
            table: Table::Standings,
        })
    );
    assert!(rt; map.repay(1, Mark(4)));
    assert_eq!(rt; map.get(3), Some(Mark(4)));
    assert!(rt; !map.repay(2, Mark(4)));
    Ok(())
}

#[test]
fn the_first_and_the_last_position(rt: HostRuntime) -> Result<(), Fail> {
    let mut slots = [entry(0, 0, 0); 4];
    let mut map = RangeMap::new(&mut slots);
    assert_eq!(rt; map.check_lay(span(0, LAST + 1)), Err(MapFault::BadRange));
    map.lay(span(0, LAST), Mark(1))?;
    map.change(span(0, 0), Mark(2))?;
    map.change(span(LAST, LAST), Mark(3))?;
    assert_eq!(rt; map.get(0), Some(Mark(2)));
    assert_eq!(rt; map.get(1), Some(Mark(1)));
    assert_eq!(rt; map.get(LAST), Some(Mark(3)));
    assert_eq!(rt; map.get(LAST + 1), None);
    assert_eq!(rt; map.entries().len(), 3);
    Ok(())
}

#[test]
fn the_first_position_whose_payload_fails_a_test(rt: HostRuntime) -> Result<(), Fail> {
    let mut slots = [entry(0, 0, 0); 4];
    let mut map = RangeMap::new(&mut slots);
    map.lay(span(1, 3), Mark(2))?;
    map.lay(span(4, 6), Mark(1))?;
    map.lay(span(8, 9), Mark(2))?;
    let test = AtLeast { least: 2 };
    assert_eq!(rt; map.first_failing(span(1, 3), &test), None);
    assert_eq!(rt; map.first_failing(span(2, 9), &test), Some(4));
    assert_eq!(rt; map.first_failing(span(5, 9), &test), Some(5));
    let any = AtLeast { least: 0 };
    assert_eq!(rt; map.first_failing(span(2, 9), &any), Some(7));
    assert_eq!(rt; map.first_failing(span(0, 3), &any), Some(0));
    Ok(())
}

#[test]
fn every_entry_gets_what_becomes_of_it(rt: HostRuntime) -> Result<(), Fail> {
    let mut slots = [entry(0, 0, 0); 4];
    let mut map = RangeMap::new(&mut slots);
    map.lay(span(1, 3), Mark(1))?;
    map.lay(span(4, 6), Mark(2))?;
    map.lay(span(8, 9), Mark(1))?;
    map.remake(&MarkedPast {
        position: 4,
        mark: Mark(5),
    });
    assert_eq!(rt; map.count(), 3);
    assert_eq!(rt; map.entry(0), Some(entry(1, 3, 1)));
    assert_eq!(rt; map.entry(1), Some(entry(4, 6, 2)));
    assert_eq!(rt; map.entry(2), Some(entry(8, 9, 5)));
    Ok(())
}
