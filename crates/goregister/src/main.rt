// Reads an order file from standard input and prints what an inspection finds.
#![tactic(auto)]

use figures::MAX_FILE_BYTES;
use inspection::inspect_file;
use std::io::{Read, Write};

// One byte more than an order file may have: enough to know that it is too long.
const MOST_READ: u64 = MAX_FILE_BYTES as u64 + 1;

fn main(rt: HostRuntime) -> anyhow::Result<()> {
    let mut file = Vec::new(rt.alloc());
    rt.stdin().take(MOST_READ).read_to_end(&mut file)?;
    let output = inspect_file(rt.alloc(), &file)?;
    rt.stdout().write_all(&output)?;
    Ok(())
}
