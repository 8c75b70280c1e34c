#![tactic(auto)]

use directory::{listing, table_named};
use std::io::Read;
use std::{env, io};

// The most bytes that are read: 64 MiB.
const LONGEST: u64 = 67_108_864;

// Lists the table directory of the font on standard input, or, given a tag, the line of that table.
fn main(rt: HostRuntime) -> io::Result<()> {
    let mut font = Vec::new(rt.alloc());
    rt.stdin().take(LONGEST).read_to_end(&mut font)?;
    let text = match env::args(&rt)?.nth(1) {
        Some(tag) => table_named(rt.alloc(), font.as_slice(), tag.as_bytes())?,
        None => listing(rt.alloc(), font.as_slice())?,
    };
    print!(rt; "{text}")
}
