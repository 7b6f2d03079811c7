// A whole order file, and what is printed of it.
ghost use Rattle.std.specs.Prelude.{◌≡◌, IfOk};
ghost use Rattle.inspection.specs.Files.{findings, printed, inspection};

use crate::orders::Orders;
use figures::MAX_FILE_BYTES;
use report::{lawful_line, refused_line, too_long_line};
use std::alloc::{AllocError, Global};

fn inspect_orders(heap: Global, file: &[u8]) -> Result<Vec<u8>, AllocError>
    ensures printed { IfOk result (λ out. out.items ≡ printed (findings file.now)) }
{
    let mut out = Vec::new(heap);
    let mut lawful = 0;
    for (index, (place, order)) in Orders::of(file).enumerate() {
        match order {
            Ok(_) => lawful += 1,
            Err(refusal) => {
                let line = refused_line(index as u64, place as u64, refusal.number());
                out.extend_from_slice(&line)?;
            }
        }
    }
    out.extend_from_slice(&lawful_line(lawful))?;
    Ok(out)
}

// All that the program prints of an order file. Want of memory is the only error.
pub fn inspect_file(heap: Global, file: &[u8]) -> Result<Vec<u8>, AllocError>
    ensures printed { IfOk result (λ out. out.items ≡ inspection file.now) }
{
    if file.len() > MAX_FILE_BYTES {
        return Ok(Vec::from_array(heap, too_long_line())?);
    }
    inspect_orders(heap, file)
}
