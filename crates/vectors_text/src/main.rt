// Lists the packs of the file `cases`, each under its title; the gate holds what is printed to the file `stdout`. Both files are made by the
// reference (`cargo run --release --offline --example vectors_text` in reference/): a case is its title line and its pack, each after its length in two bytes.
#![tactic(auto)]

ghost use Rattle.std.specs.Prelude.{◌<◌, ◌≤◌, length, take, IfOk};
ghost use Rattle.std.specs.Io.KnownBytes.{Consumes, IsAtEnd};

use anyhow::{Context, Result};
use std::fs::File;
use std::io;
use std::io::{Read, Write};

// A longer title, or a longer pack, counts as an empty one.
const TITLE: usize = 256;

const PACK: usize = 32769;

// Fills `buf` with the bytes that come next, and answers how many there were: fewer only where the input ends. On an error `buf` holds what came before
// it. The place is counted by hand: each read says how much it gave.
fn read_full<R: Read>(input: &mut R, buf: &mut [u8]) -> io::Result<usize>
    ensures upper_bound { IfOk result (λ n. n ≤ length buf.new) }
    ensures consumed { IfOk result (λ n. Consumes (R.remaining input.old) (R.remaining input.new) (take n buf.new)) }
    ensures ended { IfOk result (λ n. n < length buf.new → IsAtEnd (R.remaining input.new)) }
{
    let mut n = 0;
    while n < buf.len() {
        let more = input.read(&mut buf[n..])?;
        if more == 0 {
            return Ok(n);
        }
        n += more;
    }
    Ok(n)
}

// Reads the next block into `buf`, cut off where the file ends, and answers how long it is: 0 where the file has ended, or where `buf` is too short.
fn block(file: &mut impl Read, buf: &mut [u8]) -> io::Result<usize>
    ensures { IfOk result (λ n. n ≤ length buf.new) }
{
    let mut size = [0u8; 2];
    if read_full(file, &mut size)? < 2 {
        return Ok(0);
    }
    let n = usize::from(numbers::be16(&size, 0));
    if buf.len() < n {
        return Ok(0);
    }
    read_full(file, &mut buf[0..n])
}

// Lists the next case and answers whether there was one.
fn case(file: &mut impl Read, to: &mut impl Write) -> io::Result<bool> {
    let mut title = [0u8; TITLE];
    let size = block(file, &mut title)?;
    if size == 0 {
        return Ok(false);
    }
    to.write_all(&title[..size])?;
    let mut pack = [0u8; PACK];
    let size = block(file, &mut pack)?;
    let mut text = [0u8; 4096];
    let n = pack_text::list(&pack[..size], &mut text);
    to.write_all(&text[..n])?;
    Ok(true)
}

// A proved loop has to end, and nothing says that a file does: there are fewer cases than this.
fn main(rt: HostRuntime) -> Result<()> {
    let mut file = File::open(&rt, "cases").context("cases")?;
    let mut out = io::writer(&rt);
    for _ in 0..10000u32 {
        if !case(&mut file, &mut out)? {
            break;
        }
    }
    Ok(())
}
