#![tactic(auto)]
// The value of a label's first payload in the main pack or else in the backup pack, and a mark that says in which.
ghost use Rattle.std.specs.Prelude.{◌≡◌, List, Bool, Some, ℕ, ◌+◌, ◌≤◌, length, take};
ghost use Rattle.std.specs.Option.{option_or};
ghost use Rattle.refusals.specs.Outcomes.{answered};
ghost use Rattle.pack.specs.Payloads.{ground_of};
ghost use Rattle.pack.specs.Items.{items_from};
ghost use Rattle.pack.specs.Reading.{reading};
ghost use Rattle.pack.specs.declared.Name.{Name};
ghost use Rattle.pack_config.specs.Index.{LabelsLie};
ghost use Rattle.lookup.specs.Lookup.{found_in, looked_up, part_of};
ghost use Rattle.lookup.specs.Sought.{spot_of, Tells, wanted_tag, InsideSought, sought_body, sought_read};

use pack::{Element, Step, Stretch};
use pack_config::Mappings;
use refusals::{Refusal, Refused};

// Which of the two packs, or neither.
#[derive(Clone, Copy, Debug, PartialEq, Eq)]
pub enum Mark {
    Main,
    Backup,
    Neither,
}

// Where the value stands: its pack and its stretch there, and its payload's total offset.
#[derive(Clone, Copy, Debug, PartialEq, Eq)]
pub struct Found {
    pub from: Mark,
    pub value: Stretch,
    pub total: i64,
}

// Why no value is found: the main pack is refused, or the backup pack, or neither has the label, which is the refusal ABSENT at place 0.
#[derive(Clone, Copy, Debug, PartialEq, Eq)]
pub enum Unfound {
    Main(Refused),
    Backup(Refused),
    Absent,
}

// The tag of Config, which no payload has. It stands for no tag in the loops over payloads, where an `Option` is more to compare; there it pays.
const NO_PAYLOAD: u32 = 1;

// Where a value stands in its pack, and its payload's total offset in two's complement. In 32 bits each, since the loops carry it along.
#[derive(Clone, Copy, Debug, PartialEq, Eq)]
pub struct Spot {
    pub start: u32,
    pub len: u32,
    pub total: u32,
}

// What the inside of a Sync comes to: how many items and payloads there are with its own, and where the first of its payloads that is sought has its value.
#[derive(Clone, Copy, Debug, PartialEq, Eq)]
pub struct Inside {
    pub count: usize,
    pub first: Option<Spot>,
}

// What was found before, or else where a payload that is sought has its value. Few payloads are, so this stays out of the loops over them; there it pays.
#[cold]
#[inline(never)]
fn or_spot(first: Option<Spot>, total: u32, base: usize, value: Stretch) -> Option<Spot>
    requires { base + (value.start + value.len) ≤ 32768 }
    ensures { result ≡ option_or first (Some (spot_of (base + value.start) value.len total)) }
{
    let spot = Spot {
        start: (base + value.start) as u32,
        len: value.len as u32,
        total,
    };
    first.or(Some(spot))
}

// The payloads of the inside of a Sync, which stands at `base` of the pack and gives them their total offset, where `used` items and payloads came before.
fn seek_inside(
    q: &[u8],
    base: usize,
    used: usize,
    wanted: Option<u32>,
    total: u32,
) -> Result<Inside, Refused>
    requires { (used ≤ 64) × (base + length q.now ≤ 32768) }
    ensures { (tags : List ℕ) (test : Name → Bool) → Tells tags test wanted → InsideSought q.now (ground_of tags total) test base used result }
{
    let sought = wanted.unwrap_or(NO_PAYLOAD);
    let mut first: Option<Spot> = None;
    let mut count = used;
    let mut at: usize = 0;
    while at < q.len() {
        match pack_item::inner_at(q, at, count) {
            Err(why) => return Err(why.at(base + at)),
            Ok(Element { tag, value }) => {
                if tag == sought {
                    first = or_spot(first, total, base, value);
                }
                count += 1;
                at = value.start + value.len;
            }
        }
    }
    Ok(Inside { count, first })
}

// The items of the pack from `from` on, which have this total offset outside Syncs: where the first payload that is sought has its value, or the refusal.
// Nothing is stored of the others.
fn seek_items(
    s: &[u8],
    from: usize,
    wanted: Option<u32>,
    total: u32,
) -> Result<Option<Spot>, Refused>
    requires { length s.now ≤ 32768 }
    ensures { (tags : List ℕ) (test : Name → Bool) → Tells tags test wanted → result ≡ answered (sought_body test) (items_from (length s.now) s.now (ground_of tags total) from 0) }
{
    let sought = wanted.unwrap_or(NO_PAYLOAD);
    let mut first: Option<Spot> = None;
    let mut n: usize = 0;
    let mut at = from;
    while at < s.len() {
        match pack_item::item_at(s, at, n) {
            Err(why) => return Err(why.at(at)),
            Ok(Step::Close(value)) => {
                if pack_item::crc_good(s, value) {
                    return Ok(first);
                }
                return Err(Refusal::Crc.at(at));
            }
            Ok(Step::Plain(Element { tag, value })) => {
                if tag == sought {
                    first = or_spot(first, total, 0, value);
                }
                n += 1;
                at = value.start + value.len;
            }
            Ok(Step::Open(value)) => {
                let base = value.start + 4;
                let end = value.start + value.len;
                let used = n + 1;
                let own = numbers::be16(s, value.start);
                let inner = numbers::sum32(total, own);
                let inside = seek_inside(&s[base..end], base, used, wanted, inner)?;
                if inside.count == used {
                    return Err(Refusal::Sync.at(at));
                }
                first = first.or(inside.first);
                n = inside.count;
                at = end;
            }
        }
    }
    Ok(first)
}

// The tag that is mapped to a label, by the mappings of the pack.
fn mapped_to(pack: &[u8], maps: &Mappings, label: &[u8]) -> Option<u32>
    requires { LabelsLie pack.now (take maps.now.count maps.now.places) }
    ensures { result ≡ wanted_tag pack.now label.now (take maps.now.count maps.now.tags) (take maps.now.count maps.now.places) }
{
    if label.len() != 16 {
        return None;
    }
    for i in 0..maps.count {
        if labels::same_label(pack, maps.places[i] as usize, label, 0) {
            return Some(maps.tags[i]);
        }
    }
    None
}

// Where a pack has the value of a label's first payload.
fn seek(pack: &[u8], label: &[u8]) -> Result<Option<Spot>, Refused>
    ensures { result ≡ answered (sought_read label.now) (reading pack.now) }
{
    let mut maps = Mappings::none();
    let opening = pack_read::open(pack, &mut maps)?;
    let wanted = mapped_to(pack, &maps, label);
    seek_items(
        pack,
        opening.next,
        wanted,
        numbers::extended(opening.offset),
    )
}

// What stands in the pack of the mark.
fn found_in(from: Mark, spot: Spot) -> Found
    ensures { result ≡ found_in from spot.start spot.len spot.total }
{
    let value = Stretch {
        start: spot.start as usize,
        len: spot.len as usize,
    };
    Found {
        from,
        value,
        total: numbers::signed32(spot.total),
    }
}

// Where the value of a label's first payload stands, in main or else in backup, and its total offset; or the refusal: main's, then backup's, then ABSENT.
pub fn lookup(main: &[u8], backup: &[u8], label: &[u8]) -> Result<Found, Unfound>
    ensures { result ≡ looked_up main.now backup.now label.now }
{
    if let Some(spot) = seek(main, label).map_err(Unfound::Main)? {
        // Main has it, so that of backup nothing is wanted but its check.
        pack_check::check(backup).map_err(Unfound::Backup)?;
        return Ok(found_in(Mark::Main, spot));
    }
    match seek(backup, label).map_err(Unfound::Backup)? {
        Some(spot) => Ok(found_in(Mark::Backup, spot)),
        None => Err(Unfound::Absent),
    }
}

// The very part of main or of backup that an answer tells: no bytes where none is found.
pub fn part<'a>(main: &'a [u8], backup: &'a [u8], found: Result<Found, Unfound>) -> &'a [u8]
    ensures { result.now ≡ part_of main.now backup.now found }
{
    let Ok(found) = found else {
        return &main[0..0];
    };
    match found.from {
        Mark::Main => pack_value::stretch(main, found.value),
        Mark::Backup => pack_value::stretch(backup, found.value),
        Mark::Neither => &main[0..0],
    }
}

// The value itself: the part of main or of backup that `lookup` tells.
pub fn value<'a>(main: &'a [u8], backup: &'a [u8], label: &[u8]) -> &'a [u8]
    ensures { result.now ≡ part_of main.now backup.now (looked_up main.now backup.now label.now) }
{
    let found = lookup(main, backup, label);
    part(main, backup, found)
}
