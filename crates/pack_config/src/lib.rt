#![tactic(auto)]
// Config: the pack offset, and the mappings of tags to labels.
ghost use Rattle.std.specs.Prelude.{◌≡◌, [], ℕ, ◌+◌, ◌≤◌, length};
ghost use Rattle.pack.specs.Config.{mappings_from, config_maps};
ghost use Rattle.pack_config.specs.Columns.{None};
ghost use Rattle.pack_config.specs.Tables.{MapsWalked, MapsRead};
ghost use Rattle.pack_config.specs.First.{first_at};

mod mappings;
mod table;

use numbers::Fault;
use pack::Stretch;
use refusals::{Refusal, Refused};
pub use table::Mappings;

// The most mappings.
const MAPPING_CAP: usize = 32;

// The mappings of a Config, whose part `c` ends where it ends, from `from` on: how many there are. They come with none. A label's mark tells that its digest
// was seen, so that it is compared with the others only if it has to be.
fn read_mappings(c: &[u8], place: usize, from: usize, maps: &mut Mappings) -> Result<usize, Refused>
    requires { (length c.now ≤ 32768) × None maps.old }
    ensures { (k : ℕ) → length c.now ≤ from + k → MapsWalked (mappings_from k c.now place [] from) result maps.new }
{
    let mut marks = [0u8; 251];
    let mut at = from;
    while at < c.len() {
        if MAPPING_CAP <= maps.count {
            return Err(Refusal::Count.at(place));
        }
        let (tag, next) = match numbers::read_tag(c, at) {
            Ok(tag) => tag,
            Err(Fault::Form) => return Err(Refusal::Tag.at(place)),
            Err(Fault::Cut) => return Err(Refusal::Config.at(place)),
        };
        if c.len() - next < 16 {
            return Err(Refusal::Config.at(place));
        }
        let digest = labels::digest(c, next);
        if maps.clashes(c, tag, next, marks[digest]) {
            return Err(Refusal::Map.at(place));
        }
        maps.add(tag, next);
        marks[digest] = 1;
        at = next + 16;
    }
    Ok(maps.count)
}

// The stretch of the value of the Config that stands first, if one does. Its tag is the one byte 01, so most packs without one are told by it.
pub fn first_at(s: &[u8], at: usize) -> Option<Stretch>
    ensures { result ≡ first_at s.now at }
{
    if s.len() <= at {
        return None;
    }
    if s[at] != 1 {
        return None;
    }
    let Ok(element) = pack_item::payload_at(s, at) else {
        return None;
    };
    Some(element.value)
}

// The mappings of the Config at `at`, by the stretch of its value: its size, then each mapping. They come with none, and there are none after a refusal.
pub fn config(s: &[u8], at: usize, value: Stretch, maps: &mut Mappings) -> Result<usize, Refused>
    requires { (value.start + value.len ≤ length s.now) × (length s.now ≤ 32768) × None maps.old }
    ensures { MapsRead (config_maps s.now at value.start value.len) result maps.new }
{
    if value.len < 2 {
        return Err(Refusal::Config.at(at));
    }
    let end = value.start + value.len;
    let read = read_mappings(&s[0..end], at, value.start + 2, &mut *maps);
    if read.is_err() {
        *maps = Mappings::none();
    }
    read
}
