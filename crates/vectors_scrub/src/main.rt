// Scrubs each case that standard input brings and prints the answer and the whole buffer; the gate holds that to the file `stdout`. Cases and
// `stdout` come from the reference: `cargo run --release --offline --example vectors_scrub` in reference/ makes both.
//
// A case is four numbers of 32 bits, most significant byte first: how many bytes its name, its sheet, its pack and its buffer have. Name, sheet and
// pack follow; every byte of the buffer holds EE before the scrub.
#![tactic(auto)]

ghost use Rattle.std.specs.Prelude.{◌<◌, ◌≤◌, length, take, IfOk};
ghost use Rattle.std.specs.Io.KnownBytes.{Consumes, IsAtEnd};

use refusals::Refused;
use std::io;
use std::io::{Read, Write};
use vectors::Hex;

// A longer buffer than this is told by its front, by the end of the pack in it, and by its CRC.
const SHORT: usize = 96;

const FRONT: usize = 48;

const END: usize = 16;

// How many bytes the parts of a case have at most.
const NAME: usize = 256;

const SHEET: usize = 4096;

const PACK: usize = 65536;

// A buffer whose first `end` bytes are a pack. The CRC of a pack with its own CRC and of zeros after it is 0, whatever it holds, so that the end of
// the pack, which has that CRC, stands beside it.
fn buffer(to: &mut impl Write, s: &[u8], end: usize) -> io::Result<()> {
    let size = s.len();
    if size <= SHORT {
        return writeln!(to, "  {size} bytes:{}", Hex(s));
    }
    let crc = crc::crc(s);
    let front = Hex(&s[0..FRONT]);
    write!(to, "  {size} bytes, CRC {crc:08x}:{front} ..")?;
    if let Some(pack) = s.get(..end)
        && let Some(last) = pack.last_chunk::<END>()
    {
        write!(to, "{}", Hex(last))?;
    }
    writeln!(to)
}

// The answer, and what the buffer then holds.
fn told(to: &mut impl Write, answer: Result<usize, Refused>, out: &[u8]) -> io::Result<()> {
    match answer {
        Ok(size) => {
            writeln!(to, ": done {size}")?;
            buffer(to, out, size)
        }
        Err(refused) => {
            let place = refused.place;
            writeln!(to, ": refused {} {place}", refused.why.number())?;
            buffer(to, out, 0)
        }
    }
}

// Fills `buf` with the bytes that come next, and answers how many there were: fewer only where the input ends. On an error `buf` holds what came before
// it. The place is counted by hand: each read says how much it gave.
fn read_full<R: Read>(input: &mut R, buf: &mut [u8]) -> io::Result<usize>
    ensures upper_bound { IfOk result (λ n. n ≤ length buf.new) }
    ensures consumed { IfOk result (λ n. Consumes (R.remaining input.old) (R.remaining input.new) (take n buf.new)) }
    ensures ended { IfOk result (λ n. n < length buf.new → IsAtEnd (R.remaining input.new)) }
{
    let mut n = 0;
    while n < buf.len() {
        let more = input.read(&mut buf[n..])?;
        if more == 0 {
            return Ok(n);
        }
        n += more;
    }
    Ok(n)
}

// Fills `s` with the next bytes of the input, or tells that there are not so many.
fn filled(input: &mut impl Read, to: &mut impl Write, s: &mut [u8]) -> io::Result<bool> {
    if read_full(input, s)? == s.len() {
        return Ok(true);
    }
    writeln!(to, "the cases end early")?;
    Ok(false)
}

// The rest of a case after its four numbers, which are the lengths of these parts.
fn run(
    input: &mut impl Read,
    to: &mut impl Write,
    name: &mut [u8],
    sheet: &mut [u8],
    pack: &mut [u8],
    out: &mut [u8],
) -> io::Result<bool> {
    if !filled(input, to, name)? || !filled(input, to, sheet)? || !filled(input, to, pack)? {
        return Ok(false);
    }
    to.write_all(name)?;
    let answer = scrub::scrub(sheet, pack, out);
    told(to, answer, out)?;
    Ok(true)
}

// Whether a case was there and could be run.
fn case(input: &mut impl Read, to: &mut impl Write) -> io::Result<bool> {
    let mut head = [0u8; 16];
    let got = read_full(input, &mut head)?;
    if got == 0 {
        return Ok(false);
    }
    if got < 16 {
        writeln!(to, "the cases end early")?;
        return Ok(false);
    }
    let name_len = numbers::be32(&head, 0) as usize;
    let sheet_len = numbers::be32(&head, 4) as usize;
    let pack_len = numbers::be32(&head, 8) as usize;
    let room = numbers::be32(&head, 12) as usize;
    if name_len > NAME || sheet_len > SHEET || pack_len > PACK || room > PACK {
        writeln!(to, "a case is too long")?;
        return Ok(false);
    }
    let mut name = [0u8; NAME];
    let mut sheet = [0u8; SHEET];
    let mut pack = [0u8; PACK];
    let mut out = [0xEEu8; PACK];
    run(
        input,
        to,
        &mut name[..name_len],
        &mut sheet[..sheet_len],
        &mut pack[..pack_len],
        &mut out[..room],
    )
}

// A loop has to end, and nothing says that the input does: more cases than this are not run.
fn main(rt: HostRuntime) -> io::Result<()> {
    let mut input = rt.reader();
    let mut out = io::writer(&rt);
    for _ in 0..100000u32 {
        if !case(&mut input, &mut out)? {
            break;
        }
    }
    Ok(())
}
