// The browser: reads a table from standard input, and writes the line of every row, or one refusal line.
#![tactic(auto)]

use anyhow::anyhow;
use listing::answer;
use std::io;
use std::io::{Read, Write};

// One byte more than a text may have: enough to know that it is too long.
const ENOUGH: u64 = 65536;

fn read_text(rt: &HostRuntime) -> io::Result<Vec<u8>> {
    let mut text = Vec::new(rt.alloc());
    rt.stdin().take(ENOUGH).read_to_end(&mut text)?;
    Ok(text)
}

fn main(rt: HostRuntime) -> anyhow::Result<()> {
    let text = read_text(&rt)?;
    let lines = answer(&text, rt.alloc()).map_err(|_| anyhow!("no memory for the plan"))?;
    rt.stdout().write_all(&lines)?;
    Ok(())
}
