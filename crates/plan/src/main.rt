//! Reads a plan file from standard input, and writes its listing.
#![tactic(auto)]

use figures::MOST_STREAMS;
use planfile::{LONGEST_LISTING, NO_STREAM, list_plan};
use std::io;
use std::io::{Read, Write};

/// One byte more than a plan file may have: enough to tell that a file is too long.
const MOST_READ: u64 = 8_001;

fn main(rt: HostRuntime) -> io::Result<()> {
    let mut bytes = Vec::new(rt.alloc());
    rt.stdin().take(MOST_READ).read_to_end(&mut bytes)?;
    let mut memory = [NO_STREAM; MOST_STREAMS];
    let mut out = vec![in rt.alloc(); 0u8; LONGEST_LISTING]?;
    let Ok(n) = list_plan(&bytes, &mut memory, &mut out) else {
        unreachable!()
    };
    rt.stdout().write_all(&out[0..n])
}
