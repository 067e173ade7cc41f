#![tactic(auto)]
// How the input of a case is laid out: in parts, each with how often it stands there and its length, in two bytes each, and its bytes.
ghost use Rattle.std.specs.Prelude.{map, ◌-◌, ◌<◌, ◌≤◌, length, take, replicate, IfOk, Some};
ghost use Rattle.std.specs.Io.KnownBytes.{Consumes, IsAtEnd};
ghost use Rattle.std.specs.List.{flat_map};
ghost use Rattle.runs.specs.Digits.{digits};
ghost use Rattle.runs.specs.Over.{Wrote};
ghost use Rattle.vectors.specs.Blocks.{fitting, fours, blocks_in};
ghost use Rattle.vectors.specs.Hex.{spaced_hex};

#[cfg(test)]
mod tests;

use std::io::Read;
use std::{fmt, io};

// Puts numbers into `out` as four bytes each, as many as it has room for, and answers how many bytes they are.
pub fn laid(numbers: &[u32], out: &mut [u8]) -> usize
    ensures { (result ≤ length out.new) × Wrote out.old 0 (fitting (length out.old) (map (digits 256 4) numbers.now)) result out.new }
{
    let mut at = 0;
    for n in numbers {
        if out.len() - at < 4 {
            return at;
        }
        at = numbers::write_be32(&mut *out, at, *n);
    }
    at
}

// Takes the numbers of four bytes each from `s`, as many as `out` has room for, and answers how many they are.
pub fn taken(s: &[u8], out: &mut [u32]) -> usize
    ensures { (result ≤ length out.new) × Wrote out.old 0 (fours (length out.old) s.now 0) result out.new }
{
    let mut at = 0;
    for n in 0..out.len() {
        if s.len() - at < 4 {
            return n;
        }
        out[n] = numbers::be32(s, at);
        at += 4;
    }
    out.len()
}

// Puts a block into `out` so many times from `from` on, and answers the place after the last that has room.
fn repeated(block: &[u8], times: usize, out: &mut [u8], from: usize) -> usize
    requires { from ≤ length out.old }
    ensures { (result ≤ length out.new) × Wrote out.old from (fitting (length out.old - from) (replicate times block.now)) result out.new }
{
    let mut n = from;
    for _ in 0..times {
        if out.len() - n < block.len() {
            return n;
        }
        n = runs::copy(&mut *out, n, block);
    }
    n
}

// Puts the input that these parts make up into `out`, and answers how many bytes it is. The places are counted by hand: each part says how long it is.
pub fn joined(parts: &[u8], out: &mut [u8]) -> usize
    ensures { (result ≤ length out.new) × Wrote out.old 0 (fitting (length out.old) (blocks_in parts.now)) result out.new }
{
    let mut n = 0;
    let mut at = 0;
    while 4 <= parts.len() - at {
        let times = usize::from(numbers::be16(parts, at));
        let size = usize::from(numbers::be16(parts, at + 2));
        let begin = at + 4;
        if parts.len() - begin < size {
            return n;
        }
        n = repeated(&parts[begin..begin + size], times, &mut *out, n);
        at = begin + size;
    }
    n
}

// Fills `buf` with the bytes that come next, and answers how many there were: fewer only where the input ends. On an error `buf` holds what came before it.
// `read_exact` does not tell how many there were, and of `take` with `read_to_end` no clause says that it keeps within its limit.
pub fn read_full<R: Read>(input: &mut R, buf: &mut [u8]) -> io::Result<usize>
    ensures upper_bound { IfOk result (λ n. n ≤ length buf.new) }
    ensures consumed { IfOk result (λ n. Consumes (R.remaining input.old) (R.remaining input.new) (take n buf.new)) }
    ensures ended { IfOk result (λ n. n < length buf.new → IsAtEnd (R.remaining input.new)) }
{
    let mut n = 0;
    while n < buf.len() {
        let more = input.read(&mut buf[n..])?;
        if more == 0 {
            return Ok(n);
        }
        n += more;
    }
    Ok(n)
}

// Bytes as the vector programs print them: in hexadecimal, a space before each.
#[derive(Clone, Copy)]
pub struct Hex<'a>(pub &'a [u8]);

impl<'a> fmt::Display for Hex<'a> {
    ghost output = { λ h. Some (flat_map spaced_hex h.0.now) };

    fn fmt<W: fmt::Write>(&self, f: &mut fmt::Formatter<W>) -> fmt::Result {
        for &b in self.0 {
            write!(f, " {b:02x}")?;
        }
        Ok(())
    }
}
