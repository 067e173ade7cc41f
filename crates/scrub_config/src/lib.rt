#![tactic(auto)]
// The Config of a scrubbed pack: its size, and its bytes in a lent buffer that has room for them.
ghost use Rattle.std.specs.Prelude.{◌≡◌, ◌+◌, ◌≤◌, ◌<◌, length};
ghost use Rattle.runs.specs.Over.{Wrote};
ghost use Rattle.runs.specs.Those.{Each};
ghost use Rattle.pack_layout.specs.Layout.{entries_bytes};
ghost use Rattle.scrub_config.specs.Entries.{mapping_bytes, entries_at, config_at, config_size, MappingFits};

// A mapping of the new pack: which mapping of the old pack has its label, where that label stands, and the new tag.
#[derive(Clone, Copy)]
pub struct Mapping {
    pub index: u32,
    pub place: u32,
    pub tag: u32,
}

// How many bytes Config takes: none if the pack offset is 0 and nothing is mapped.
pub fn config_size(offset: u16, count: usize) -> usize
    requires { count ≤ 64 }
    ensures { (result ≡ config_size offset count) × (result < 2000) }
{
    if count + offset as usize == 0 {
        return 0;
    }
    let value = 2 + 17 * count;
    1 + (numbers::length_size(value as u32) + value)
}

// One mapping: a tag of one byte and the label.
fn write_mapping(p: &[u8], mapping: Mapping, out: &mut [u8], at: usize) -> usize
    requires { MappingFits p.now mapping × (at + length (mapping_bytes p.now mapping) ≤ length out.old) }
    ensures { Wrote out.old at (mapping_bytes p.now mapping) result out.new }
{
    let first = mapping.place as usize;
    let end = first + 16;
    let label = numbers::write_tag(out, at, mapping.tag);
    runs::copy(out, label, &p[first..end])
}

// The mappings, one after the other.
fn write_mappings(p: &[u8], mappings: &[Mapping], out: &mut [u8], at: usize) -> usize
    requires { Each (MappingFits p.now) mappings.now × (at + length (entries_bytes (entries_at p.now mappings.now)) ≤ length out.old) }
    ensures { Wrote out.old at (entries_bytes (entries_at p.now mappings.now)) result out.new }
{
    let mut next = at;
    for mapping in mappings {
        next = write_mapping(p, *mapping, out, next);
    }
    next
}

// Config, if there is one: tag, length, pack offset, mappings.
pub fn write_config(p: &[u8], offset: u16, mappings: &[Mapping], out: &mut [u8], at: usize) -> usize
    requires { (length mappings.now ≤ 64) × Each (MappingFits p.now) mappings.now
        × (at + length (config_at p.now offset mappings.now) ≤ length out.old) }
    ensures { Wrote out.old at (config_at p.now offset mappings.now) result out.new }
{
    let count = mappings.len();
    if count + offset as usize == 0 {
        return at;
    }
    let value = 2 + 17 * count;
    let a = numbers::write_tag(out, at, 1);
    let b = numbers::write_length(out, a, value as u32);
    let first = numbers::write_be16(out, b, offset);
    write_mappings(p, mappings, out, first)
}
