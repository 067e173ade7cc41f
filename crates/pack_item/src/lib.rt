#![tactic(auto)]
// One payload or item of a pack: what stands at a place, and whether the CRC that stands there is the pack's.
ghost use Rattle.std.specs.Prelude.{◌≡◌, ◌+◌, ◌≤◌, length};
ghost use Rattle.pack.specs.Payloads.{payload_at, inner_at};
ghost use Rattle.pack.specs.Items.{judged, item_at, crc_good};
ghost use Rattle.pack_item.specs.Quick.{glance_at};

use numbers::Fault;
use pack::{Element, Step, Stretch};
use refusals::Refusal;

// The most items and payloads of a pack.
const ITEM_CAP: usize = 64;

// Looks at four bytes: is an audio payload there, whole, with a tag of one byte and a length of one, or of three by the form 82? Most payloads are so.
// It stays this small so that the compiler puts it into the loops over payloads; there it pays.
fn look(p: &[u8], at: usize) -> Option<Element>
    requires { at ≤ length p.now }
    ensures { result ≡ glance_at p.now at }
{
    let left = p.len() - at;
    if left < 4 {
        return None;
    }
    let tag = p[at];
    if tag <= 3 {
        return None;
    }
    if 127 < tag {
        return None;
    }
    let form = p[at + 1];
    let mut size: usize = 2;
    let mut len = form as usize;
    if 127 < form {
        if form != 130 {
            return None;
        }
        size = 4;
        len = numbers::be16(p, at + 2) as usize;
    }
    if left - size < len {
        return None;
    }
    let value = Stretch {
        start: at + size,
        len,
    };
    Some(Element {
        tag: tag as u32,
        value,
    })
}

// The payload at `at` of a part: tag, length, value end, in this order.
#[inline(always)]
fn parsed_at(p: &[u8], at: usize) -> Result<Element, Refusal>
    ensures { result ≡ payload_at p.now at }
{
    let (tag, next) = match numbers::read_tag(p, at) {
        Ok(tag) => tag,
        Err(Fault::Form) => return Err(Refusal::Tag),
        Err(Fault::Cut) => return Err(Refusal::Cut),
    };
    let (long, start) = match numbers::read_length(p, next) {
        Ok(length) => length,
        Err(Fault::Form) => return Err(Refusal::Length),
        Err(Fault::Cut) => return Err(Refusal::Cut),
    };
    let len = long as usize;
    if p.len() - start < len {
        return Err(Refusal::Cut);
    }
    let value = Stretch { start, len };
    Ok(Element { tag, value })
}

// The payload at `at` of a part. Few payloads come to this, so it is a call out of the loops over them; there it pays.
#[cold]
#[inline(never)]
pub fn payload_at(p: &[u8], at: usize) -> Result<Element, Refusal>
    ensures { result ≡ payload_at p.now at }
{
    parsed_at(p, at)
}

// The payload at `at` of the inside of a Sync, where `used` items and payloads came before.
pub fn inner_at(q: &[u8], at: usize, used: usize) -> Result<Element, Refusal>
    requires { at ≤ length q.now }
    ensures { result ≡ inner_at q.now at used }
{
    if let Some(Element { value, tag }) = look(q, at) {
        if used < ITEM_CAP {
            return Ok(Element { value, tag });
        }
    }
    let element = payload_at(q, at)?;
    if element.tag <= 3 {
        return Err(Refusal::Place);
    }
    if ITEM_CAP <= used {
        return Err(Refusal::Count);
    }
    Ok(element)
}

// What a payload of the pack is: PLACE, COUNT, own content.
fn judge(s: &[u8], used: usize, element: Element) -> Result<Step, Refusal>
    requires { element.value.start + element.value.len ≤ length s.now }
    ensures { result ≡ judged s.now used element.tag element.value.start element.value.len }
{
    let tag = element.tag;
    let value = element.value;
    if tag == 1 {
        return Err(Refusal::Place);
    }
    if tag == 3 {
        if value.start + value.len != s.len() {
            return Err(Refusal::Place);
        }
        if value.len != 4 {
            return Err(Refusal::Crc);
        }
        return Ok(Step::Close(value.start));
    }
    if ITEM_CAP <= used {
        return Err(Refusal::Count);
    }
    if tag == 2 {
        if value.len < 4 {
            return Err(Refusal::Sync);
        }
        return Ok(Step::Open(value));
    }
    Ok(Step::Plain(element))
}

// What stands at `at` of the pack, read in full, where `used` items and payloads came before. Few items come to this, so it is a call out of the loops over
// them, and one alone: for each answer of a call they clear room at every item.
#[cold]
#[inline(never)]
fn item_in_full(s: &[u8], at: usize, used: usize) -> Result<Step, Refusal>
    ensures { result ≡ item_at s.now at used }
{
    judge(s, used, parsed_at(s, at)?)
}

// What stands at `at` of the pack, where `used` items and payloads came before. Each loop over items has its own copy of this: as a call it took half as
// long again. An element's fields are taken apart where they are handed on, so that they stay in registers.
#[inline(always)]
pub fn item_at(s: &[u8], at: usize, used: usize) -> Result<Step, Refusal>
    requires { at ≤ length s.now }
    ensures { result ≡ item_at s.now at used }
{
    if let Some(Element { value, tag }) = look(s, at) {
        if used < ITEM_CAP {
            return Ok(Step::Plain(Element { value, tag }));
        }
    }
    item_in_full(s, at, used)
}

// Whether the CRC whose value stands at `at` is that of the pack up to `at`.
pub fn crc_good(s: &[u8], at: usize) -> bool
    requires { at + 4 ≤ length s.now }
    ensures { result ≡ crc_good s.now at }
{
    numbers::be32(s, at) == crc::crc(&s[0..at])
}
