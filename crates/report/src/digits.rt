// Numbers in decimal digits of a fixed width.
ghost use Rattle.std.specs.Prelude.{◌≡◌, ◌+◌, ◌<◌, length};
ghost use Rattle.report.specs.Digits.{digits};

// A digit as it prints.
fn digit_byte(digit: u64) -> u8
    requires one_digit { digit < 10 }
    ensures byte { result ≡ 48 + digit }
{
    b'0' + digit as u8
}

// Fills the slice with the number's last digits, leading zeros included: the slice is as long as the
// figure is wide.
pub fn write_digits(out: &mut [u8], number: u64)
    ensures digits { out.new ≡ digits (length out.old) number }
{
    let mut rest = number;
    // By index: of what a loop over `iter_mut().rev()` wrote, a proof knows no more than the length.
    for place in (0..out.len()).rev() {
        out[place] = digit_byte(rest % 10);
        rest /= 10;
    }
}
