// Runs the cases on standard input through the PMD functions and prints what comes of each: the answer, how the lent run begins, and the CRC of all
// of it. The gate hands it the file `stdin` and holds what it prints to the file `stdout`. Both are made by reference/examples/vectors_pmd.rs, which
// says how a case is laid out; the answers are the reference implementation's.
#![tactic(auto)]

ghost use Rattle.std.specs.Prelude.{◌<◌, ◌≤◌, length, take, IfOk};
ghost use Rattle.std.specs.Io.KnownBytes.{Consumes, IsAtEnd};

use pmd::Level;
use refusals::Refused;
use std::io;
use std::io::{Read, Write};
use vectors::Hex;

// How much of a lent run is printed.
const SHOWN: usize = 12;

// An input of more bytes than these is cut off.
const INPUT: usize = 65536;

// What the parts of a case make up at most, and the longest runs of numbers and of bytes that are lent.
const GIVEN: usize = 132096;

const NUMBERS: usize = 9828;

const BYTES: usize = 8192;

fn cut(to: &mut impl Write) -> io::Result<()> {
    writeln!(to, "the cases are cut off")
}

// A refusal: its number in document 01 and its place.
fn refused(to: &mut impl Write, r: Refused) -> io::Result<()> {
    let place = r.place;
    write!(to, "refused {} at {place}", r.why.number())
}

// An answer: a count or a refusal.
fn told(to: &mut impl Write, answer: Result<usize, Refused>) -> io::Result<()> {
    match answer {
        Ok(n) => write!(to, "done {n}")?,
        Err(r) => refused(to, r)?,
    }
    write!(to, ";")
}

// Reads a value into a run of so many numbers.
fn read(to: &mut impl Write, kind: u32, value: &[u8], room: usize) -> io::Result<()> {
    if NUMBERS < room {
        return cut(to);
    }
    let mut run = [99999u32; NUMBERS];
    let run = &mut run[..room];
    let size = value.len();
    write!(to, "read kind {kind}, {size} bytes, room {room}: ")?;
    told(to, pmd_read::pmd_read(kind, value, &mut *run))?;
    for n in run.iter().take(SHOWN) {
        write!(to, " {n}")?;
    }
    let mut bytes = [0u8; 4 * NUMBERS];
    let laid = vectors::laid(run, &mut bytes);
    writeln!(to, ", crc {:08x}", crc::crc(&bytes[0..laid]))
}

// Writes the numbers that these bytes are into a run of so many bytes.
fn write(to: &mut impl Write, kind: u32, given: &[u8], room: usize) -> io::Result<()> {
    if BYTES < room {
        return cut(to);
    }
    let mut numbers = [0u32; GIVEN / 4];
    let count = vectors::taken(given, &mut numbers);
    let mut run = [0xEEu8; BYTES];
    let run = &mut run[..room];
    write!(to, "write kind {kind}, {count} numbers, room {room}: ")?;
    told(
        to,
        pmd_write::pmd_write(kind, &numbers[0..count], &mut *run),
    )?;
    let crc = crc::crc(run);
    let shown = run.len().min(SHOWN);
    writeln!(to, "{}, crc {crc:08x}", Hex(&run[0..shown]))
}

fn level(to: &mut impl Write, gain: u32) -> io::Result<()> {
    write!(to, "gain {gain}: ")?;
    match pmd::gain(gain) {
        Ok(Level::Muted) => write!(to, "muted")?,
        Ok(Level::HalfDecibels(n)) => write!(to, "{n}")?,
        Err(r) => refused(to, r)?,
    }
    writeln!(to)
}

fn run(to: &mut impl Write, call: u8, number: u32, room: usize, parts: &[u8]) -> io::Result<()> {
    let mut given = [0u8; GIVEN];
    let size = vectors::joined(parts, &mut given);
    let given = &given[..size];
    match call {
        b'r' => read(to, number, given, room),
        b'w' => write(to, number, given, room),
        b'g' => level(to, number),
        _ => cut(to),
    }
}

// A case without the length before it: ten bytes, the last of which is the length of its name, then the name and the parts.
fn case(to: &mut impl Write, s: &[u8]) -> io::Result<()> {
    let Some((head, rest)) = s.split_first_chunk::<10>() else {
        return cut(to);
    };
    let Some((name, parts)) = rest.split_at_checked(usize::from(head[9])) else {
        return cut(to);
    };
    to.write_all(name)?;
    write!(to, ": ")?;
    let number = numbers::be32(head, 1);
    let room = numbers::be32(head, 5) as usize;
    run(to, head[0], number, room, parts)
}

// All cases, one after the other.
fn cases(to: &mut impl Write, all: &[u8]) -> io::Result<()> {
    let mut n = 0usize;
    let mut left = all;
    while let Some((size, rest)) = left.split_first_chunk::<4>() {
        let size = u32::from_be_bytes(*size) as usize;
        let Some((first, rest)) = rest.split_at_checked(size) else {
            return cut(to);
        };
        case(to, first)?;
        left = rest;
        n += 1;
    }
    writeln!(to, "{n} cases")
}

// Fills `buf` with the bytes that come next, and answers how many there were: fewer only where the input ends. On an error `buf` holds what came before
// it. The place is counted by hand: each read says how much it gave.
fn read_full<R: Read>(input: &mut R, buf: &mut [u8]) -> io::Result<usize>
    ensures upper_bound { IfOk result (λ n. n ≤ length buf.new) }
    ensures consumed { IfOk result (λ n. Consumes (R.remaining input.old) (R.remaining input.new) (take n buf.new)) }
    ensures ended { IfOk result (λ n. n < length buf.new → IsAtEnd (R.remaining input.new)) }
{
    let mut n = 0;
    while n < buf.len() {
        let more = input.read(&mut buf[n..])?;
        if more == 0 {
            return Ok(n);
        }
        n += more;
    }
    Ok(n)
}

fn main(rt: HostRuntime) -> io::Result<()> {
    let mut all = [0u8; INPUT];
    let n = read_full(&mut rt.reader(), &mut all)?;
    cases(&mut io::writer(&rt), &all[..n])
}
