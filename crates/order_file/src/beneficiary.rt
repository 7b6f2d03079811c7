// Whom a cancellation is for: 24 bytes of printable ASCII, padded with blanks, the first no blank.
ghost use Rattle.std.specs.Prelude.{◌≡◌, true};
ghost use Rattle.order_file.specs.Operands.{all_printable, beneficiary_lawful};

use crate::operands::Checked;

#[derive(Clone, Copy, PartialEq, Eq, Debug)]
pub struct Beneficiary {
    pub bytes: [u8; 24],
    ghost lawful: { beneficiary_lawful bytes ≡ true },
}

fn all_printable(bytes: &[u8]) -> bool
    ensures all { result ≡ all_printable bytes.now }
{
    bytes.iter().all(|byte| matches!(byte, 0x20..=0x7E))
}

impl Checked for Beneficiary {
    type Plain = [u8; 24];

    ghost lawful = { beneficiary_lawful };

    ghost plain = { λ beneficiary. beneficiary.bytes };

    fn checked(bytes: [u8; 24]) -> Option<Beneficiary> {
        if bytes[0] != b' ' && all_printable(&bytes) {
            Some(Beneficiary { bytes })
        } else {
            None
        }
    }
}
