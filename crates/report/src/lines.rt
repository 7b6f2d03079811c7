// Whole lines, each with its line end. Not by `Display`: a line's length is in its type, and a figure too
// wide for its place shows its last digits, where `{:06}` would show them all.
ghost use Rattle.std.specs.Prelude.{◌≡◌};
ghost use Rattle.report.specs.Lines.{refused_line, lawful_line, too_long_line};

use crate::digits::write_digits;

// An order that came back: its index from 0, the place of its command byte, and the refusal's number.
pub fn refused_line(index: u64, place: u64, number: u8) -> [u8; 25]
    ensures line { result ≡ refused_line index place number }
{
    let mut line = *b"REFUSED 000000 000000 00\n";
    // From the right, so that the bytes before each figure are still those above.
    write_digits(&mut line[22..24], u64::from(number));
    write_digits(&mut line[15..21], place);
    write_digits(&mut line[8..14], index);
    line
}

// How many orders have lawful operands.
pub fn lawful_line(count: u64) -> [u8; 14]
    ensures line { result ≡ lawful_line count }
{
    let mut line = *b"LAWFUL 000000\n";
    write_digits(&mut line[7..13], count);
    line
}

// All that is printed of an order file above the limit.
pub fn too_long_line() -> [u8; 9]
    ensures line { result ≡ too_long_line }
{
    *b"TOO LONG\n"
}
