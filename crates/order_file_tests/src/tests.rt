use crate::samples::{ENDS, EVERY_KIND};
use crate::walk::{count, refused_distance, walk_through};
use order_file::{AccountOperand, Cancel, Declare, MakeOffer, Order, ReadFault, read_order};
use std::test::Fail;

#[test]
fn a_file_with_every_kind(rt: HostRuntime) {
    let all = walk_through(&EVERY_KIND);
    assert_eq!(rt; all.read, 8);
    assert_eq!(rt; all.lawful, 8);
    assert_eq!(rt; all.end, ReadFault::CutShort { place: 152 });
}

#[test]
fn an_empty_file(rt: HostRuntime) {
    let none = walk_through(&[]);
    assert_eq!(rt; none.read, 0);
    assert_eq!(rt; none.end, ReadFault::CutShort { place: 0 });
}

// An unknown command is told even if nothing follows it.
#[test]
fn an_unknown_command(rt: HostRuntime) {
    let odd = walk_through(&[0x44, 0, 0, 0, 1, 0x42]);
    assert_eq!(rt; odd.read, 1);
    assert_eq!(rt; odd.end, ReadFault::UnknownCommand { place: 5 });
}

// The whole orders are read, and the one that is cut is named by its place.
#[test]
fn a_file_cut_at_every_length(rt: HostRuntime) {
    for length in 0..EVERY_KIND.len() {
        let cut = walk_through(&EVERY_KIND[0..length]);
        let behind = &ENDS[..ENDS.partition_point(|end| *end <= length)];
        let whole = behind.len();
        let place = behind.last().copied().unwrap_or(0);
        assert_eq!(rt; cut.read, whole);
        assert_eq!(rt; cut.lawful, whole);
        assert_eq!(rt; cut.end, ReadFault::CutShort { place });
    }
}

#[test]
fn the_operands_of_a_declaration(rt: HostRuntime) -> Result<(), Fail> {
    let (order, rest) = read_order(&EVERY_KIND[21..152], 21)?;
    let Order::Declare(declare) = order else {
        return Err(Fail::new("not a declaration"));
    };
    assert_eq!(rt; rest.len(), 100);
    assert_eq!(rt; declare.device, 17);
    assert_eq!(rt; declare.account.number, 1);
    assert_eq!(rt; declare.first_day, 0);
    assert_eq!(rt; declare.last_day, 30);
    assert_eq!(rt; declare.energy, 2_500_000);
    Ok(())
}

#[test]
fn the_operands_of_a_cancellation(rt: HostRuntime) -> Result<(), Fail> {
    let (order, rest) = read_order(&EVERY_KIND[103..152], 103)?;
    let Order::Cancel(cancel) = order else {
        return Err(Fail::new("not a cancellation"));
    };
    assert_eq!(rt; rest.len(), 0);
    let terms = cancel.check()?;
    assert_eq!(rt; terms.account.letters(), (0x41, 0x41));
    assert_eq!(rt; count(terms.numbers), 2);
    assert_eq!(rt; terms.year.year, 2000);
    assert_eq!(rt; terms.beneficiary.bytes, *b"MILL STREET BAKERY      ");
    Ok(())
}

#[test]
fn the_first_bad_operand_of_a_declaration(rt: HostRuntime) {
    let account = AccountOperand {
        first: 0x41,
        second: 0x41,
        number: 1,
    };
    let nobody = AccountOperand {
        number: 0,
        ..account
    };
    let lawful = Declare {
        device: 17,
        account,
        first_day: 0,
        last_day: 18_262,
        energy: 1_000_000_000_000,
    };
    assert_eq!(rt; refused_distance(Order::Declare(lawful)), 0);
    assert_eq!(rt;
        refused_distance(Order::Declare(Declare {
            device: 18,
            ..lawful
        })),
        1
    );
    assert_eq!(rt;
        refused_distance(Order::Declare(Declare {
            account: nobody,
            energy: 0,
            ..lawful
        })),
        9
    );
    assert_eq!(rt;
        refused_distance(Order::Declare(Declare {
            first_day: 31,
            last_day: 30,
            ..lawful
        })),
        19
    );
    assert_eq!(rt;
        refused_distance(Order::Declare(Declare {
            last_day: 18_263,
            ..lawful
        })),
        19
    );
    assert_eq!(rt;
        refused_distance(Order::Declare(Declare {
            energy: 0,
            ..lawful
        })),
        23
    );
    assert_eq!(rt;
        refused_distance(Order::Declare(Declare {
            energy: 1_000_000_000_001,
            ..lawful
        })),
        23
    );
}

#[test]
fn the_first_bad_operand_of_a_cancellation(rt: HostRuntime) {
    let account = AccountOperand {
        first: 0x5A,
        second: 0x5A,
        number: 999_999,
    };
    let lawful = Cancel {
        account,
        first: 1,
        last: 999_999_999_999,
        year: 2049,
        beneficiary: *b"X                       ",
    };
    assert_eq!(rt; refused_distance(Order::Cancel(lawful)), 0);
    assert_eq!(rt;
        refused_distance(Order::Cancel(Cancel { first: 0, ..lawful })),
        15
    );
    assert_eq!(rt;
        refused_distance(Order::Cancel(Cancel {
            last: 1_000_000_000_000,
            ..lawful
        })),
        15
    );
    assert_eq!(rt;
        refused_distance(Order::Cancel(Cancel {
            year: 2050,
            ..lawful
        })),
        23
    );
    assert_eq!(rt;
        refused_distance(Order::Cancel(Cancel {
            beneficiary: *b" X                      ",
            ..lawful
        })),
        25
    );
    assert_eq!(rt;
        refused_distance(Order::Cancel(Cancel {
            beneficiary: *b"X                      \x7F",
            ..lawful
        })),
        25
    );
    let offer = MakeOffer {
        from: account,
        to: account,
        first: 3,
        last: 2,
    };
    assert_eq!(rt; refused_distance(Order::Offer(offer)), 21);
}
