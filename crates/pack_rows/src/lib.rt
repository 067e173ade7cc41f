#![tactic(auto)]
// The reading of a pack as rows of eight numbers in a lent run.
ghost use Rattle.std.specs.Prelude.{◌≡◌, cond, ◌+◌, ◌≤◌, length};
ghost use Rattle.runs.specs.Over.{Wrote};
ghost use Rattle.refusals.specs.Lent.{within, Delivered};
ghost use Rattle.pack.specs.Fits.{NameFits, ItemFits};
ghost use Rattle.pack_rows.specs.Rows.{pack_row, payload_row, item_row, rows_read};

use pack::{Item, Name, Payload};
use pack_config::Mappings;
use pack_read::Outline;
use refusals::{Refusal, Refused};

// How a row tells what it is of: a payload, a Sync, or a payload inside the Sync above.
const SINGLE: u32 = 0;

const SYNC: u32 = 1;

const INNER: u32 = 2;

// And by what it is named: a tag, the place of a label, or nothing.
const TAG: u32 = 0;

const LABEL: u32 = 1;

const NOTHING: u32 = 2;

// 1 where a CRC stood.
fn mark(crc: bool) -> u32
    ensures { result ≡ cond crc 1 0 }
{
    if crc { 1 } else { 0 }
}

// The row of the pack, which holds other numbers than those of its items: its offset, whether a CRC stood there, and how many rows follow.
fn pack_row(found: Outline) -> [u32; 8]
    requires { found.count ≤ 64 }
    ensures { result ≡ pack_row found.offset found.crc found.count }
{
    let offset = numbers::extended(found.offset);
    [offset, mark(found.crc), found.count as u32, 0, 0, 0, 0, 0]
}

// The row of a payload. A label is told by where it stands in the pack, which `places` says of each mapping.
fn payload_row(places: &[u32; 32], form: u32, x: Payload) -> [u32; 8]
    requires { NameFits x.name }
    ensures { result ≡ payload_row places.now form x.name x.start x.value_start x.value_len x.total }
{
    let Payload {
        name,
        start,
        value_start,
        value_len,
        total,
    } = x;
    match name {
        Name::Number(tag) => [form, start, TAG, tag, value_start, value_len, total, 0],
        Name::Label(i) => {
            let place = places[i as usize];
            [form, start, LABEL, place, value_start, value_len, total, 0]
        }
    }
}

// The row of an item or inner payload.
fn item_row(places: &[u32; 32], item: Item) -> [u32; 8]
    requires { ItemFits item }
    ensures { result ≡ item_row places.now item }
{
    match item {
        Item::Single(x) => payload_row(places, SINGLE, x),
        Item::Inner(x) => payload_row(places, INNER, x),
        Item::Sync(h) => {
            let offset = numbers::extended(h.offset);
            let duration = h.duration as u32;
            [
                SYNC,
                h.start,
                NOTHING,
                h.inside,
                h.value_start,
                h.value_len,
                offset,
                duration,
            ]
        }
    }
}

// Stores a row and answers the place after it, number by number: a row that is copied as a whole is laid down in memory first.
fn put_row(out: &mut [u32], at: usize, row: [u32; 8]) -> usize
    requires { at + 8 ≤ length out.old }
    ensures { Wrote out.old at row result out.new }
{
    out[at] = row[0];
    out[at + 1] = row[1];
    out[at + 2] = row[2];
    out[at + 3] = row[3];
    out[at + 4] = row[4];
    out[at + 5] = row[5];
    out[at + 6] = row[6];
    out[at + 7] = row[7];
    at + 8
}

// Reads a pack into `out`: the pack's row, then one for each item and inner payload in order. Answers how many numbers these are, or the refusal
// and its place: those of the pack, then NOROOM. Numbers after them do not change; a refusal changes none.
pub fn rows(pack: &[u8], out: &mut [u32]) -> Result<usize, Refused>
    ensures { Delivered (within (length out.old) (rows_read pack.now)) out.old result out.new }
{
    let mut items = pack_read::blanks();
    let mut maps = Mappings::none();
    let found = pack_read::read_into(pack, &mut items, &mut maps)?;
    if out.len() < 8 * (1 + found.count) {
        return Err(Refusal::NoRoom.at(0));
    }
    let mut next = put_row(&mut *out, 0, pack_row(found));
    for i in 0..found.count {
        next = put_row(&mut *out, next, item_row(&maps.places, items[i]));
    }
    Ok(next)
}
