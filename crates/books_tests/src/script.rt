// The script: what any book of four slots answers, for five keys of its kind.
use books::{Book, BookFault, Change, Key, Posting, post, post_both};
use figures::BookName;
use std::process::Abort;

// Four keys join, and the fifth finds the book full.
fn joins<K: Key, B: Book<K>>(rt: &impl Abort, book: &mut B, name: BookName, keys: [K; 5]) {
    let [a, b, c, d, late] = keys;
    assert_eq!(rt; book.capacity(), 4);
    assert_eq!(rt; book.count(), 0);
    assert_eq!(rt; book.add(a), Ok(1));
    assert_eq!(rt; book.add(b), Ok(2));
    assert_eq!(rt; book.add(a), Err(BookFault::Present { book: name }));
    assert_eq!(rt; book.add(c), Ok(3));
    assert_eq!(rt; book.vet_add(d), Ok(()));
    assert_eq!(rt; book.add(d), Ok(4));
    assert_eq!(rt; book.vet_add(late), Err(BookFault::Full { book: name }));
    assert_eq!(rt; book.add(late), Err(BookFault::Full { book: name }));
    assert_eq!(rt; book.add(b), Err(BookFault::Present { book: name }));
    assert_eq!(rt; book.count(), 4);
}

// Each is found by its key, in whatever order the rows lie.
fn numbers<K: Key, B: Book<K>>(rt: &impl Abort, book: &B, keys: [K; 5]) {
    let [a, b, c, d, late] = keys;
    assert_eq!(rt; book.running_number(a), Some(1));
    assert_eq!(rt; book.running_number(b), Some(2));
    assert_eq!(rt; book.running_number(c), Some(3));
    assert_eq!(rt; book.running_number(d), Some(4));
    assert_eq!(rt; book.running_number(late), None);
}

// Totals are those of one member, and stop at their limits.
fn totals<K: Key, B: Book<K>>(rt: &impl Abort, book: &mut B, name: BookName, keys: [K; 5]) {
    let [a, b, c, d, late] = keys;
    assert_eq!(rt; book.totals(c), Some((0, 0)));
    assert_eq!(rt; book.write_totals(b, 7, 2_000_000_000_000), Ok(()));
    assert_eq!(rt; book.totals(b), Some((7, 999_999_999_999)));
    assert_eq!(rt;
        book.write_totals(late, 1, 1),
        Err(BookFault::Absent { book: name })
    );
    assert_eq!(rt; book.totals(late), None);
    let gives = Posting {
        key: b,
        first: Change::Down(10),
        second: Change::Down(999),
    };
    let takes = Posting {
        key: d,
        first: Change::Up(10),
        second: Change::Up(0),
    };
    post_both(book, gives, takes);
    post(
        book,
        Posting {
            key: late,
            first: Change::Up(5),
            second: Change::Up(5),
        },
    );
    assert_eq!(rt; book.totals(a), Some((0, 0)));
    assert_eq!(rt; book.totals(b), Some((0, 999_999_999_000)));
    assert_eq!(rt; book.totals(c), Some((0, 0)));
    assert_eq!(rt; book.totals(d), Some((10, 0)));
}

pub(crate) fn run<K: Key, B: Book<K>>(rt: &impl Abort, book: &mut B, name: BookName, keys: [K; 5]) {
    joins(rt, book, name, keys);
    numbers(rt, book, keys);
    totals(rt, book, name, keys);
}
