// Lists the pack on standard input. Standard output has the listing and nothing else. An input that cannot be read is told on standard error, with
// exit status 1, and is not taken for a short pack.
#![tactic(auto)]

ghost use Rattle.std.specs.Prelude.{◌≤◌, length, IfOk};

use anyhow::{Context, Result};
use std::io;
use std::io::{Read, Write};

// One byte more than the longest pack is enough to see that a pack is too long.
const ENOUGH: usize = 32769;

// Reads until the input ends or `buf` is full, and answers how many bytes came. The place is counted by hand: each read says how much it gave.
fn fill(input: &mut impl Read, buf: &mut [u8]) -> io::Result<usize>
    ensures { IfOk result (λ n. n ≤ length buf.new) }
{
    let mut n = 0;
    while n < buf.len() {
        let more = input.read(&mut buf[n..])?;
        if more == 0 {
            break;
        }
        n += more;
    }
    Ok(n)
}

fn main(rt: HostRuntime) -> Result<()> {
    let mut pack = [0u8; ENOUGH];
    let n = fill(&mut rt.reader(), &mut pack).context("standard input")?;
    let mut text = [0u8; 4096];
    let size = pack_text::list(&pack[..n], &mut text);
    io::writer(&rt)
        .write_all(&text[..size])
        .context("standard output")
}
