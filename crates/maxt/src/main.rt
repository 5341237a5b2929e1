// Reads a session from standard input, and prints the reply of each of its lines.
#![tactic(auto)]

use console::session;
use judge::Case;
use std::io::{Read, Write};

// What lies beyond is not read.
const MAX_INPUT: usize = 65_536;

fn main(rt: HostRuntime) -> anyhow::Result<()> {
    let heap = rt.alloc();
    // one place more than is read, so that the read that finds the end wants no longer list
    let mut input = Vec::with_capacity(heap, MAX_INPUT + 1)?;
    rt.stdin().take(MAX_INPUT as u64).read_to_end(&mut input)?;
    let mut case = Case::new(heap)?;
    let replies = session(heap, &mut case, &input)?;
    rt.stdout().write_all(&replies)?;
    Ok(())
}
