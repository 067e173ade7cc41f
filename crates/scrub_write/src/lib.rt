#![tactic(auto)]
// The write pass: key, length, Config, the writes and the CRC of a pack into a lent buffer that has room for them.
ghost use Rattle.std.specs.Prelude.{[], ◌∷◌, ◌++◌, ◌+◌, ◌≤◌, ◌<◌, ◌^◌, length, take};
ghost use Rattle.runs.specs.Over.{Wrote};
ghost use Rattle.numbers.specs.Lengths.{length_bytes};
ghost use Rattle.pack.specs.Fixed.{key};
ghost use Rattle.scrub_write.specs.Packed.{framed, sealed, Packed, content_at, Packs};

use scrub_config::Mapping;
use scrub_ops::Op;

const KEY: [u8; 16] = [
    0x06, 0x0E, 0x2B, 0x34, 0x02, 0x7F, 0x01, 0x01, 0x0C, 0x04, 0x01, 0x00, 0x00, 0x00, 0x00, 0x00,
];

// Key and length before a value of `size` bytes.
fn write_start(out: &mut [u8], size: usize) -> usize
    requires { (16 + length (length_bytes size) ≤ length out.old) × (size < 2 ^ 32) }
    ensures { Wrote out.old 0 (key ++ length_bytes size) result out.new }
{
    let first = KEY;
    let at = runs::copy(out, 0, &first);
    numbers::write_length(out, at, size as u32)
}

// The CRC of what stands before `at`, its tag and its length, and 0 to the buffer's end.
fn write_close(out: &mut [u8], at: usize) -> usize
    requires { at + 6 ≤ length out.old }
    ensures { Packed out.old (sealed (take at out.old ++ (3 ∷ 4 ∷ []))) result out.new }
{
    out[at] = 3;
    out[at + 1] = 4;
    let value = at + 2;
    let sum = crc::crc(&out[0..value]);
    let end = numbers::write_be32(out, value, sum);
    runs::clear(out, end);
    end
}

// The whole pack, and 0 to the buffer's end. `size` is how many bytes the pack's value takes.
pub fn write_pack(
    p: &[u8],
    offset: u16,
    mappings: &[Mapping],
    ops: &[Option<Op>],
    size: usize,
    out: &mut [u8],
) -> usize
    requires { Packs p.now offset mappings.now ops.now size × (16 + length (length_bytes size) + size ≤ length out.old) }
    ensures { Packed out.old (sealed (framed (content_at p.now offset mappings.now ops.now))) result out.new }
{
    let a = write_start(out, size);
    let b = scrub_config::write_config(p, offset, mappings, out, a);
    let c = scrub_ops::write_ops(p, ops, out, b);
    write_close(out, c)
}
