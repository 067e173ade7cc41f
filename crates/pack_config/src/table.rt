// The mappings of a pack in arrays: their tags, where their labels stand in the pack, and an index of the tags of one byte.
ghost use Rattle.std.specs.Prelude.{◌≡◌, ◌≤◌, length, take};
ghost use Rattle.pack.specs.Fixed.{mapping_cap};
ghost use Rattle.pack_config.specs.Index.{Knows};

// The first `count` places of two arrays are in use, and of each tag of one byte `known` has the index of its mapping, plus 1, or 0 where it is not mapped.
#[derive(Clone, Copy)]
pub struct Mappings {
    pub count: usize,
    pub tags: [u32; 32],
    pub places: [u32; 32],
    pub known: [u8; 128],
    pub ghost few: { count ≤ mapping_cap },
    pub ghost wide: { (length tags ≡ mapping_cap) × (length places ≡ mapping_cap) × (length known ≡ 128) },
    pub ghost index: { Knows (take count tags) known },
}
