#![tactic(auto)]
// The text of a reading: a line for the pack and one for each item and inner payload, or one line for a refusal, written into a lent buffer.
ghost use Rattle.std.specs.Prelude.{◌≡◌, Ok, ◌+◌, ◌≤◌, length};
ghost use Rattle.runs.specs.Over.{Wrote};
ghost use Rattle.refusals.specs.Refusals.{number_of};
ghost use Rattle.refusals.specs.Outcomes.{answered};
ghost use Rattle.pack.specs.Reading.{reading};
ghost use Rattle.pack.specs.Slots.{shown};
ghost use Rattle.pack_text.specs.Text.{line, pack_fields, sync_fields, number_fields, label_fields, refused_fields, payload_line, listing};
ghost use Rattle.pack_text.specs.Fields.{sizes};
ghost use Rattle.pack_text.specs.Items.{item_line, item_lines, NameStands, ItemStands, ItemsStand};

use pack::{Head, Item, Name, Payload, Reading};
use refusals::Refused;

// The lines are written by functions and no Display: what `write!` writes has no contract, and here each byte has one, without a heap.

// The line of the pack: its offset, the count of items and inner payloads, and whether a CRC stood there.
fn put_pack(out: &mut [u8], at: usize, offset: u16, count: usize, crc: bool) -> usize
    requires { at + sizes (pack_fields offset count crc) ≤ length out.old }
    ensures { Wrote out.old at (line (pack_fields offset count crc)) result out.new }
{
    let offset_at = figures::put_word(out, at, b"pack", b' ');
    let count_at = figures::put_signed(out, offset_at, offset, b' ');
    let crc_at = figures::put_decimal(out, count_at, count as u64, b' ');
    if crc {
        figures::put_word(out, crc_at, b"good", b'\n')
    } else {
        figures::put_word(out, crc_at, b"none", b'\n')
    }
}

// The line of a Sync.
fn put_sync(out: &mut [u8], at: usize, head: Head) -> usize
    requires { at + sizes (sync_fields head) ≤ length out.old }
    ensures { Wrote out.old at (line (sync_fields head)) result out.new }
{
    let start_at = figures::put_word(out, at, b"sync", b' ');
    let offset_at = figures::put_decimal(out, start_at, head.start as u64, b' ');
    let duration_at = figures::put_signed(out, offset_at, head.offset, b' ');
    let inside_at = figures::put_decimal(out, duration_at, head.duration as u64, b' ');
    figures::put_decimal(out, inside_at, head.inside as u64, b'\n')
}

// The line of a payload that is known by its tag number.
fn put_number(out: &mut [u8], at: usize, payload: Payload, tag: u32) -> usize
    requires { at + sizes (number_fields payload.start tag payload.value_len payload.total) ≤ length out.old }
    ensures { Wrote out.old at (line (number_fields payload.start tag payload.value_len payload.total)) result out.new }
{
    let start_at = figures::put_word(out, at, b"number", b' ');
    let tag_at = figures::put_decimal(out, start_at, payload.start as u64, b' ');
    let len_at = figures::put_decimal(out, tag_at, tag as u64, b' ');
    let total_at = figures::put_decimal(out, len_at, payload.value_len as u64, b' ');
    figures::put_signed32(out, total_at, payload.total, b'\n')
}

// The line of a payload that is known by its label.
fn put_label(out: &mut [u8], at: usize, payload: Payload, label: &[u8]) -> usize
    requires { at + sizes (label_fields payload.start label.now payload.value_len payload.total) ≤ length out.old }
    ensures { Wrote out.old at (line (label_fields payload.start label.now payload.value_len payload.total)) result out.new }
{
    let start_at = figures::put_word(out, at, b"label", b' ');
    let label_at = figures::put_decimal(out, start_at, payload.start as u64, b' ');
    let len_at = figures::put_hex(out, label_at, label, b' ');
    let total_at = figures::put_decimal(out, len_at, payload.value_len as u64, b' ');
    figures::put_signed32(out, total_at, payload.total, b'\n')
}

// The line of a refusal.
fn put_refused(out: &mut [u8], at: usize, refused: Refused) -> usize
    requires { at + sizes (refused_fields (number_of refused.why) refused.place) ≤ length out.old }
    ensures { Wrote out.old at (line (refused_fields (number_of refused.why) refused.place)) result out.new }
{
    let number = refused.why.number();
    let number_at = figures::put_word(out, at, b"refused", b' ');
    let place_at = figures::put_decimal(out, number_at, number as u64, b' ');
    figures::put_decimal(out, place_at, refused.place as u64, b'\n')
}

// The line of a payload. `places` says where the labels of the mappings stand in the pack.
fn put_payload(
    out: &mut [u8],
    at: usize,
    pack: &[u8],
    places: &[u32; 32],
    payload: Payload,
) -> usize
    requires { (at + length (payload_line pack.now places.now payload) ≤ length out.old) × NameStands pack.now places.now payload.name }
    ensures { Wrote out.old at (payload_line pack.now places.now payload) result out.new }
{
    match payload.name {
        Name::Label(i) => {
            let from = places[i as usize] as usize;
            let to = from + 16;
            put_label(out, at, payload, &pack[from..to])
        }
        Name::Number(tag) => put_number(out, at, payload, tag),
    }
}

// The line of an item.
fn put_item(out: &mut [u8], at: usize, pack: &[u8], places: &[u32; 32], item: Item) -> usize
    requires { (at + length (item_line pack.now places.now item) ≤ length out.old) × ItemStands pack.now places.now item }
    ensures { Wrote out.old at (item_line pack.now places.now item) result out.new }
{
    match item {
        Item::Single(payload) => put_payload(out, at, pack, places, payload),
        Item::Sync(head) => put_sync(out, at, head),
        Item::Inner(payload) => put_payload(out, at, pack, places, payload),
    }
}

// The lines of items.
fn put_items(out: &mut [u8], at: usize, pack: &[u8], places: &[u32; 32], items: &[Item]) -> usize
    requires { (at + length (item_lines pack.now places.now items.now) ≤ length out.old) × ItemsStand pack.now places.now items.now }
    ensures { Wrote out.old at (item_lines pack.now places.now items.now) result out.new }
{
    let mut next = at;
    for item in items {
        next = put_item(out, next, pack, places, *item);
    }
    next
}

// The listing of a pack that is accepted, whose reading is given.
fn put_reading(out: &mut [u8], pack: &[u8], found: &Reading) -> usize
    requires { (Ok found.now ≡ answered shown (reading pack.now)) × (4096 ≤ length out.old) }
    ensures { Wrote out.old 0 (listing pack.now (reading pack.now)) result out.new }
{
    let next = put_pack(out, 0, found.offset, found.count, found.crc);
    put_items(out, next, pack, &found.labels, &found.items[..found.count])
}

// Lists the pack: writes its listing at the start of `out` and answers how long it is. Whatever the bytes are, it fits.
pub fn list(pack: &[u8], out: &mut [u8; 4096]) -> usize
    ensures wrote { Wrote out.old 0 (listing pack.now (reading pack.now)) result out.new }
    ensures upper_bound { result ≤ length out.new }
{
    match pack_read::read(pack) {
        Ok(found) => put_reading(out, pack, &found),
        Err(refused) => put_refused(out, 0, refused),
    }
}
