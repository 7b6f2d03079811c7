// Reads one order off the front of a file.
ghost use Rattle.std.specs.Prelude.{◌≡◌, ◌<◌, length, Ok, Err};
ghost use Rattle.order_file.specs.Reading.{read_order};

use crate::faults::ReadFault;
use crate::kinds::Kind;
use crate::layouts::split_order;
use crate::orders::Order;

// The order at the front of `bytes` and the bytes after it. `place` is where the front stands in the
// file, so that a refusal can name it.
pub fn read_order<'a>(bytes: &'a [u8], place: usize) -> Result<(Order, &'a [u8]), ReadFault>
    ensures order_and_rest { elim result [ Ok read ↦ read_order bytes.now place ≡ Ok (read.0, read.1.now) | Err fault ↦ read_order bytes.now place ≡ Err fault ] }
    ensures shorter_rest { elim result [ Ok read ↦ length read.1.now < length bytes.now | Err fault ↦ Unit {0} ] }
{
    let [command, rest @ ..] = bytes else {
        return Err(ReadFault::CutShort { place });
    };
    let kind = Kind::try_from(*command).map_err(|_| ReadFault::UnknownCommand { place })?;
    split_order(kind, rest).ok_or(ReadFault::CutShort { place })
}
