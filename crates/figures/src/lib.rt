#![tactic(auto)]
// Words, numbers and bytes as text, in ASCII, each written into a lent buffer as a field of a line.
ghost use Rattle.std.specs.Prelude.{◌≡◌, ◌+◌, ◌<◌, length};
ghost use Rattle.numbers.specs.Big.{signed, signed32};
ghost use Rattle.figures.specs.Figures.{size_from, decimal, integer, hex_digit, hex};
ghost use Rattle.figures.specs.Fields.{FieldPut};

// From this number on the 32 bits of a number are those of one below 0.
const NEGATIVE: u32 = 0x8000_0000;

// How many decimal digits `n` takes.
fn decimal_size(n: u64) -> usize
    ensures { result ≡ size_from 1 19 n }
{
    n.checked_ilog10().unwrap_or(0) as usize + 1
}

// The capital hex digit of `d`.
fn hex_digit(d: u8) -> u8
    requires { d < 16 }
    ensures { result ≡ hex_digit d }
{
    if d < 10 { 48 + d } else { 55 + d }
}

// Each of the next five writes a field and the byte after it, a space or a newline, and answers the place after that.
// The caller has seen that they fit.

pub fn put_word(out: &mut [u8], at: usize, word: &[u8], end: u8) -> usize
    requires { at + length word.now < length out.old }
    ensures { FieldPut out.old at word.now end result out.new }
{
    let next = runs::copy(out, at, word);
    out[next] = end;
    next + 1
}

pub fn put_decimal(out: &mut [u8], at: usize, n: u64, end: u8) -> usize
    requires { at + length (decimal n) < length out.old }
    ensures { FieldPut out.old at (decimal n) end result out.new }
{
    let next = at + decimal_size(n);
    let mut left = n;
    for i in (at..next).rev() {
        out[i] = b'0' + (left % 10) as u8;
        left /= 10;
    }
    out[next] = end;
    next + 1
}

// The 32 bits of `n` are a number in two's complement.
pub fn put_signed32(out: &mut [u8], at: usize, n: u32, end: u8) -> usize
    requires { at + length (integer (signed32 n)) < length out.old }
    ensures { FieldPut out.old at (integer (signed32 n)) end result out.new }
{
    if n < NEGATIVE {
        return put_decimal(out, at, u64::from(n), end);
    }
    out[at] = b'-';
    put_decimal(out, at + 1, 0x1_0000_0000 - u64::from(n), end)
}

// The 16 bits of `n` are one.
pub fn put_signed(out: &mut [u8], at: usize, n: u16, end: u8) -> usize
    requires { at + length (integer (signed n)) < length out.old }
    ensures { FieldPut out.old at (integer (signed n)) end result out.new }
{
    put_signed32(out, at, numbers::extended(n), end)
}

pub fn put_hex(out: &mut [u8], at: usize, bytes: &[u8], end: u8) -> usize
    requires { at + length (hex bytes.now) < length out.old }
    ensures { FieldPut out.old at (hex bytes.now) end result out.new }
{
    let mut next = at;
    for byte in bytes {
        out[next] = hex_digit(byte / 16);
        out[next + 1] = hex_digit(byte % 16);
        next += 2;
    }
    out[next] = end;
    next + 1
}
