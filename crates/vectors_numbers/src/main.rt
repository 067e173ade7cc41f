// Runs published numbers through the number layer and prints what it finds; the gate holds that to the file `stdout`.
#![tactic(auto)]

ghost use Rattle.std.specs.Prelude.{◌≤◌, ◌+◌, ◌<◌, ◌*◌, ◌^◌, length};

use numbers::Fault;
use std::io;
use std::io::Write;
use vectors::Hex;

// The tag `t`: as it is written, and as it is read back with other bytes after it.
fn tag(to: &mut impl Write, t: u32) -> io::Result<()>
    requires { t < 128 ^ 4 }
{
    let mut out = [0xEEu8; 8];
    let end = numbers::write_tag(&mut out, 0, t);
    write!(to, "tag {t} is{},", Hex(&out[0..end]))?;
    tag_at(to, &out)
}

// What reading a tag at the start of `s` finds.
fn tag_at(to: &mut impl Write, s: &[u8]) -> io::Result<()> {
    match numbers::read_tag(s, 0) {
        Ok((tag, next)) => writeln!(to, " read {tag} in {next}"),
        Err(Fault::Form) => writeln!(to, " bad"),
        Err(Fault::Cut) => writeln!(to, " cut"),
    }
}

fn tag_bytes(to: &mut impl Write, s: &[u8]) -> io::Result<()> {
    write!(to, "tag at{}:", Hex(s))?;
    tag_at(to, s)
}

// The length `n`: as it is written, and as it is read back with other bytes after it.
fn len(to: &mut impl Write, n: u32) -> io::Result<()> {
    let mut out = [0xEEu8; 8];
    let end = numbers::write_length(&mut out, 0, n);
    write!(to, "length {n} is{},", Hex(&out[0..end]))?;
    len_at(to, &out)
}

// What reading a length at the start of `s` finds.
fn len_at(to: &mut impl Write, s: &[u8]) -> io::Result<()> {
    match numbers::read_length(s, 0) {
        Ok((len, next)) => writeln!(to, " read {len} in {next}"),
        Err(Fault::Form) => writeln!(to, " forbidden"),
        Err(Fault::Cut) => writeln!(to, " cut"),
    }
}

fn len_bytes(to: &mut impl Write, s: &[u8]) -> io::Result<()> {
    write!(to, "length at{}:", Hex(s))?;
    len_at(to, s)
}

fn crc_of(to: &mut impl Write, name: &str, s: &[u8]) -> io::Result<()> {
    writeln!(to, "crc of {name}: {:08x}", crc::crc(s))
}

// The field of `w` bits from bit `at` on.
fn field(to: &mut impl Write, s: &[u8], at: usize, w: usize) -> io::Result<()>
    requires { (w ≤ 15) × ((at + w ≤ 8 * length s.now) × (length s.now ≤ 65536)) }
{
    let v = bits::fetch(s, at, w);
    writeln!(to, "field{}, {w} bits from {at}: {v}", Hex(s))
}

// A section's CRC without its last four bytes, which hold it, and with them.
fn section(to: &mut impl Write, name: &str, s: &[u8]) -> io::Result<()>
    requires { 4 ≤ length s.now }
{
    let end = s.len() - 4;
    crc_of(to, name, &s[..end])?;
    let all = crc::crc(s);
    writeln!(
        to,
        "  and with its last four bytes{}: {all:08x}",
        Hex(&s[end..])
    )
}

// Whether a 16-bit number read as two's complement is `v`.
fn sign(to: &mut impl Write, n: u16, v: i64) -> io::Result<()> {
    if numbers::signed32(numbers::extended(n)) == v {
        writeln!(to, "signed {n} is {v}")
    } else {
        writeln!(to, "signed {n} is not {v}")
    }
}

// 01's examples, and the forms that are refused.
fn tags(to: &mut impl Write) -> io::Result<()> {
    tag(to, 127)?;
    tag(to, 128)?;
    tag(to, 16383)?;
    tag(to, 16384)?;
    tag(to, 268435455)?;
    tag_bytes(to, b"\x00")?;
    tag_bytes(to, b"\x80\x01")?;
    tag_bytes(to, b"\x81")?;
    tag_bytes(to, b"\xFF\xFF\xFF\x7F")?;
    tag_bytes(to, b"\xFF\xFF\xFF\xFF")?;
    tag_bytes(to, b"")
}

// 01's examples, longer forms than needed, and the forms that are refused.
fn lengths(to: &mut impl Write) -> io::Result<()> {
    len(to, 127)?;
    len(to, 128)?;
    len(to, 255)?;
    len(to, 256)?;
    len(to, 65536)?;
    len(to, 4294967295)?;
    len_bytes(to, b"\x81\x01")?;
    len_bytes(to, b"\x84\x00\x00\x00\x01")?;
    len_bytes(to, b"\x80")?;
    len_bytes(to, b"\x85")?;
    len_bytes(to, b"\xFF\x00")?;
    len_bytes(to, b"\x82\x01")?;
    len_bytes(to, b"")
}

fn signs(to: &mut impl Write) -> io::Result<()> {
    sign(to, 0, 0)?;
    sign(to, 32767, 32767)?;
    sign(to, 32768, -32768)?;
    sign(to, 65535, -1)
}

// The check value of the catalogue of parametrised CRC algorithms (CRC-32/MPEG-2).
fn crcs(to: &mut impl Write) -> io::Result<()> {
    crc_of(to, "nothing", b"")?;
    crc_of(to, "123456789", b"123456789")?;
    crc_of(to, "123456789 and its CRC", b"123456789\x03\x76\xE6\xE7")
}

// Sections that FFmpeg's MPEG-2 transport stream muxer sends: the association of program 1 with PID 1000h, its map with one H.264 and
// one AAC stream, and the service description of "Service01" by "FFmpeg". Each ends with its CRC_32.
fn sections(to: &mut impl Write) -> io::Result<()> {
    section(
        to,
        "PAT",
        b"\x00\xB0\x0D\x00\x01\xC1\x00\x00\x00\x01\xF0\x00\x2A\xB1\x04\xB2",
    )?;
    section(
        to,
        "PMT",
        b"\x02\xB0\x17\x00\x01\xC1\x00\x00\xE1\x00\xF0\x00\x1B\xE1\x00\xF0\x00\x0F\xE1\x01\xF0\x00\x2F\x44\xB9\x9B",
    )?;
    section(
        to,
        "SDT",
        b"\x42\xF0\x25\x00\x01\xC1\x00\x00\xFF\x01\xFF\x00\x01\xFC\x80\x14\x48\x12\x01\x06\x46\x46\x6D\x70\x65\x67\x09\x53\x65\x72\x76\x69\x63\x65\x30\x31\x77\x7C\x43\xCA",
    )
}

// Sample messages of ANSI/SCTE 35, section 14: placement opportunity start, splice insert, placement opportunity end, program start and end.
// Each ends with its CRC_32.
fn messages(to: &mut impl Write) -> io::Result<()> {
    section(
        to,
        "placement opportunity start",
        b"\xFC\x30\x34\x00\x00\x00\x00\x00\x00\xFF\xFF\xF0\x05\x06\xFE\x72\xBD\x00\x50\x00\x1E\x02\x1C\x43\x55\x45\x49\x48\x00\x00\x8E\x7F\xCF\x00\x01\xA5\x99\xB0\x08\x08\x00\x00\x00\x00\x2C\xA0\xA1\x8A\x34\x02\x00\x9A\xC9\xD1\x7E",
    )?;
    section(
        to,
        "splice insert",
        b"\xFC\x30\x2F\x00\x00\x00\x00\x00\x00\xFF\xFF\xF0\x14\x05\x48\x00\x00\x8F\x7F\xEF\xFE\x73\x69\xC0\x2E\xFE\x00\x52\xCC\xF5\x00\x00\x00\x00\x00\x0A\x00\x08\x43\x55\x45\x49\x00\x00\x01\x35\x62\xDB\xA3\x0A",
    )?;
    section(
        to,
        "placement opportunity end",
        b"\xFC\x30\x2F\x00\x00\x00\x00\x00\x00\xFF\xFF\xF0\x05\x06\xFE\x74\x62\x90\xA0\x00\x19\x02\x17\x43\x55\x45\x49\x48\x00\x00\x8E\x7F\x9F\x08\x08\x00\x00\x00\x00\x2C\xA0\xA1\x8A\x35\x02\x00\xA9\xCC\x67\x58",
    )?;
    section(
        to,
        "program start and end",
        b"\xFC\x30\x48\x00\x00\x00\x00\x00\x00\xFF\xFF\xF0\x05\x06\xFE\x7A\x4D\x88\xB6\x00\x32\x02\x17\x43\x55\x45\x49\x48\x00\x00\x18\x7F\x9F\x08\x08\x00\x00\x00\x00\x2C\xCB\xC3\x44\x11\x00\x00\x02\x17\x43\x55\x45\x49\x48\x00\x00\x19\x7F\x9F\x08\x08\x00\x00\x00\x00\x2C\xA4\xDB\xA0\x10\x00\x00\x99\x72\xE3\x43",
    )
}

// The fields of w bits from each bit of a byte on: of the first byte, and where the last byte that covers the field is the last of `s`.
fn fields_of(to: &mut impl Write, s: &[u8], w: usize) -> io::Result<()>
    requires { (w ≤ 15) × ((3 ≤ length s.now) × (length s.now ≤ 65536)) }
{
    for bit in 0..8 {
        let covering = (bit + w).div_ceil(8);
        field(to, s, bit, w)?;
        field(to, s, 8 * (s.len() - covering) + bit, w)?;
    }
    Ok(())
}

// Fields of every width that a PMD value has, and of none. The reference holds their numbers in `stdout` to its own.
fn fields(to: &mut impl Write) -> io::Result<()> {
    for w in 0..16 {
        fields_of(to, b"\xA5\xC3\x0F\x81\x5E\x72", w)?;
    }
    Ok(())
}

// What the writer took stands on standard output before an error ends the program.
fn main(rt: HostRuntime) -> io::Result<()> {
    let mut out = io::writer(&rt);
    tags(&mut out)?;
    lengths(&mut out)?;
    signs(&mut out)?;
    crcs(&mut out)?;
    sections(&mut out)?;
    messages(&mut out)?;
    fields(&mut out)?;
    Ok(())
}
