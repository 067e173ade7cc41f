#![tactic(auto)]
// The scrub: the pack that a sheet keeps of a pack, written anew into a lent buffer.
ghost use Rattle.std.specs.Prelude.{◌≡◌, ◌≤◌, None, length, take, replicate};
ghost use Rattle.refusals.specs.Outcomes.{fine};
ghost use Rattle.pack.specs.Reading.{Read, reading};
ghost use Rattle.pack.specs.Meaning.{meant};
ghost use Rattle.scrub_kept.specs.Kept.{kept};
ghost use Rattle.scrub_names.specs.Given.{unmapped};
ghost use Rattle.scrub.specs.Ready.{IsAccepted, Ready};
ghost use Rattle.scrub.specs.Scrubs.{Writes, Scrubs};

use pack::Item;
use pack_config::Mappings;
use refusals::{Refusal, Refused};
use scrub_config::Mapping;
use scrub_names::Names;
use scrub_ops::Op;
use scrub_sheet::Sheet;

// The longest pack.
const PACK_CAP: usize = 32768;

// A pack that was accepted: its bytes, its offset, where the labels of its mappings stand, and its items and inner payloads.
#[derive(Clone, Copy)]
struct Accepted<'a> {
    bytes: &'a [u8],
    offset: u16,
    places: &'a [u32],
    items: &'a [Item],
}

// What is known of a pack before it is written: how many labels it maps, and the size of its value.
#[derive(Clone, Copy)]
struct Measured {
    labels: usize,
    size: usize,
}

// Keeps, names and plans: one forward pass over the items and one backward. The labels that are mapped, by first appearance, with their new tags, and
// the writes go into the two arrays, which come empty.
fn prepare(
    sheet: &Sheet<'_>,
    pack: &Accepted<'_>,
    mappings: &mut [Mapping; 64],
    ops: &mut [Option<Op>; 64],
) -> Measured
    requires { IsAccepted pack.now × (mappings.old ≡ replicate 64 unmapped) × (ops.old ≡ replicate 64 None) }
    ensures few { result.labels ≤ 64 }
    ensures ready { (q : Read) → reading pack.now.bytes.now ≡ fine q
        → Ready (kept sheet.now (meant pack.now.bytes.now q)) pack.now.bytes.now pack.now.offset (take result.labels mappings.new) (take (length pack.now.items.now) ops.new) result.size }
{
    let flags = scrub_names::flags(sheet, pack.bytes, pack.places);
    let mut names = Names::new();
    names.note(sheet, &flags, pack.items);
    names.assign(pack.places, &mut *mappings);
    let index = scrub_names::by_index(&mappings[..names.labels]);
    let bytes = scrub_plan::plan_items(pack.items, &names.marks, &index, &mut *ops);
    let size = scrub_config::config_size(pack.offset, names.labels) + bytes as usize + 6;
    Measured {
        labels: names.labels,
        size,
    }
}

// Writes what a sheet keeps of an accepted pack, or gives NOROOM before it writes.
fn write_kept(sheet: &Sheet<'_>, pack: &Accepted<'_>, out: &mut [u8]) -> Result<usize, Refused>
    requires { IsAccepted pack.now }
    ensures { Writes sheet.now pack.now.bytes.now out.old result out.new }
{
    let unmapped = Mapping {
        index: 0,
        place: 0,
        tag: 0,
    };
    let mut mappings = [unmapped; 64];
    let mut ops = [None; 64];
    let measured = prepare(sheet, pack, &mut mappings, &mut ops);
    let size = measured.size;
    let whole = 16 + numbers::length_size(size as u32) + size;
    if whole > out.len() {
        return Err(Refusal::NoRoom.at(0));
    }
    if whole > PACK_CAP {
        return Err(Refusal::NoRoom.at(0));
    }
    let mappings = &mappings[..measured.labels];
    let ops = &ops[..pack.items.len()];
    Ok(scrub_write::write_pack(pack.bytes, pack.offset, mappings, ops, size, out))
}

// Scrubs a pack by the bytes of a keep sheet into `out`: how many bytes the new pack takes, or the refusal and its place, in this order: SHEET,
// those of the pack, NOROOM. After a refusal `out` is as it was; else what follows the pack in it is 0.
pub fn scrub(sheet: &[u8], pack: &[u8], out: &mut [u8]) -> Result<usize, Refused>
    ensures { Scrubs sheet.now pack.now out.old result out.new }
{
    let keeps = scrub_sheet::judge(sheet)?;
    let mut items = pack_read::blanks();
    let mut maps = Mappings::none();
    let found = pack_read::read_into(pack, &mut items, &mut maps)?;
    let accepted = Accepted {
        bytes: pack,
        offset: found.offset,
        places: &maps.places[..maps.count],
        items: &items[..found.count],
    };
    write_kept(&keeps, &accepted, out)
}
