#![tactic(auto)]
// The reading of a pack, into lent arrays or by value.
ghost use Rattle.std.specs.Prelude.{◌≡◌, ◌+◌, ◌≤◌, length, take, replicate};
ghost use Rattle.refusals.specs.Outcomes.{and_then, answered};
ghost use Rattle.numbers.specs.Big.{big_at, extended};
ghost use Rattle.pack.specs.Fixed.{item_cap};
ghost use Rattle.pack.specs.Payloads.{ground_of, payload};
ghost use Rattle.pack.specs.Items.{sync_head, items_from};
ghost use Rattle.pack.specs.Reading.{opening_at, value_start, reading};
ghost use Rattle.pack.specs.Slots.{blank, shown};
ghost use Rattle.pack_config.specs.Columns.{None};
ghost use Rattle.pack_read.specs.Shown.{Outlined};
ghost use Rattle.pack_read.specs.Steps.{InsideRead, BodyTold, Opens};

use pack::{Element, Head, Item, Name, Payload, Reading, Step, Stretch};
use pack_config::Mappings;
use refusals::{Refusal, Refused};

// How a pack opens: its offset, and where its items start.
#[derive(Clone, Copy, Debug, PartialEq, Eq)]
pub struct Opening {
    pub offset: u16,
    pub next: usize,
}

// What is read of a pack beside its items and its mappings: how many items and inner payloads it has, the pack's offset, and whether a CRC stood there.
#[derive(Clone, Copy, Debug, PartialEq, Eq)]
pub struct Outline {
    pub count: usize,
    pub offset: u16,
    pub crc: bool,
}

// The slots of a reading before any holds an item.
pub fn blanks() -> [Item; 64]
    ensures { result ≡ replicate item_cap blank }
{
    let unused = Payload {
        name: Name::Number(0),
        start: 0,
        value_start: 0,
        value_len: 0,
        total: 0,
    };
    [Item::Single(unused); 64]
}

// The payload at `at` of a part that stands at `base` of the pack, by the mappings and its total offset.
fn payload(maps: &Mappings, total: u32, base: usize, at: usize, element: Element) -> Payload
    requires { base + at + (element.value.start + element.value.len) ≤ 65536 }
    ensures { result ≡ payload (ground_of (take maps.now.count maps.now.tags) total) (base + at) element.tag (base + element.value.start) element.value.len }
{
    Payload {
        name: maps.name(element.tag),
        start: (base + at) as u32,
        value_start: (base + element.value.start) as u32,
        value_len: element.value.len as u32,
        total,
    }
}

// A Sync with its own offset, which was read before, and so many payloads inside.
fn head(s: &[u8], at: usize, value: Stretch, own: u16, inside: usize) -> Head
    requires { (value.start + 4 ≤ length s.now) × (at + (value.start + value.len) ≤ 65536) × (inside ≤ 64) × (own ≡ big_at s.now value.start 2) }
    ensures { result ≡ sync_head s.now at value.start value.len inside }
{
    Head {
        start: at as u32,
        value_start: value.start as u32,
        value_len: value.len as u32,
        offset: own,
        duration: numbers::be16(s, value.start + 2),
        inside: inside as u32,
    }
}

// The payloads of the inside of a Sync, which stands at `base` of the pack and gives them their total offset, into the slots from `used` on: how many slots
// are used with them.
fn read_inside(
    q: &[u8],
    base: usize,
    used: usize,
    total: u32,
    maps: &Mappings,
    items: &mut [Item; 64],
) -> Result<usize, Refused>
    requires { (used ≤ 64) × (base + length q.now ≤ 32768) }
    ensures { InsideRead q.now (ground_of (take maps.now.count maps.now.tags) total) base used result items.old items.new }
{
    let mut n = used;
    let mut at: usize = 0;
    while at < q.len() {
        let element = match pack_item::inner_at(q, at, n) {
            Ok(element) => element,
            Err(why) => return Err(why.at(base + at)),
        };
        items[n] = Item::Inner(payload(maps, total, base, at, element));
        n += 1;
        at = element.value.start + element.value.len;
    }
    Ok(n)
}

// The items of the pack from where they start on, into `items`, which come blank. The inside of a Sync is handed to its reader as a part on its own.
fn read_items(
    s: &[u8],
    opening: Opening,
    maps: &Mappings,
    items: &mut [Item; 64],
) -> Result<Outline, Refused>
    requires { (length s.now ≤ 32768) × (items.old ≡ replicate item_cap blank) }
    ensures { BodyTold opening.offset (items_from (length s.now) s.now (ground_of (take maps.now.count maps.now.tags) (extended opening.offset)) opening.next 0) result items.new }
{
    let offset = opening.offset;
    let total = numbers::extended(offset);
    let mut count: usize = 0;
    let mut at = opening.next;
    while at < s.len() {
        match pack_item::item_at(s, at, count) {
            Err(why) => return Err(why.at(at)),
            Ok(Step::Close(value)) => {
                if pack_item::crc_good(s, value) {
                    let crc = true;
                    return Ok(Outline { count, offset, crc });
                }
                return Err(Refusal::Crc.at(at));
            }
            Ok(Step::Plain(Element { value, tag })) => {
                // Taken apart and put together again, since else its tag is stored by four bytes and loaded by eight.
                let element = Element { value, tag };
                items[count] = Item::Single(payload(maps, total, 0, at, element));
                count += 1;
                at = value.start + value.len;
            }
            Ok(Step::Open(value)) => {
                let base = value.start + 4;
                let end = value.start + value.len;
                let first = count + 1;
                let own = numbers::be16(s, value.start);
                let inner = numbers::sum32(total, own);
                let next = read_inside(&s[base..end], base, first, inner, maps, &mut *items)?;
                if next == first {
                    return Err(Refusal::Sync.at(at));
                }
                items[count] = Item::Sync(head(s, at, value, own, next - first));
                count = next;
                at = end;
            }
        }
    }
    let crc = false;
    Ok(Outline { count, offset, crc })
}

// How the pack opens. Its mappings come with none.
pub fn open(pack: &[u8], maps: &mut Mappings) -> Result<Opening, Refused>
    requires { None maps.old }
    ensures { Opens (and_then (value_start pack.now) (opening_at pack.now)) result maps.new }
{
    let at = pack::value_start(pack)?;
    let Some(value) = pack_config::first_at(pack, at) else {
        return Ok(Opening {
            offset: 0,
            next: at,
        });
    };
    pack_config::config(pack, at, value, &mut *maps)?;
    Ok(Opening {
        offset: numbers::be16(pack, value.start),
        next: value.start + value.len,
    })
}

// Empties the items and the mappings of a pack that is refused. It stays out of the reading, which would keep room for new items and blank it at each call.
#[inline(never)]
fn clear(items: &mut [Item; 64], maps: &mut Mappings)
    ensures { (items.new ≡ replicate item_cap blank) × None maps.new }
{
    *items = blanks();
    *maps = Mappings::none();
}

// The reading of a pack, its items and inner payloads in `items`, which come blank, and its mappings, which come with none. So they are after a refusal.
pub fn read_into(
    pack: &[u8],
    items: &mut [Item; 64],
    maps: &mut Mappings,
) -> Result<Outline, Refused>
    requires { (items.old ≡ replicate item_cap blank) × None maps.old }
    ensures { Outlined pack.now result items.new maps.new }
{
    let opening = open(pack, &mut *maps)?;
    let found = read_items(pack, opening, &*maps, &mut *items);
    if found.is_err() {
        clear(&mut *items, &mut *maps);
    }
    found
}

// The reading of a pack: its offset, its mappings, its items in order and whether a CRC stood there, or the refusal and its place.
pub fn read(pack: &[u8]) -> Result<Reading, Refused>
    ensures { result ≡ answered shown (reading pack.now) }
{
    let mut items = blanks();
    let mut maps = Mappings::none();
    let found = read_into(pack, &mut items, &mut maps)?;
    Ok(Reading {
        count: found.count,
        offset: found.offset,
        crc: found.crc,
        mapped: maps.count as u32,
        tags: maps.tags,
        labels: maps.places,
        items,
    })
}
