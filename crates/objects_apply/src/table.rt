// A table of objects in work.
ghost use Rattle.std.specs.Prelude.{◌≡◌, ◌≤◌, length, take};
ghost use Rattle.runs.specs.Finding.{place};
ghost use Rattle.objects.specs.Entries.{free};
ghost use Rattle.objects_apply.specs.Marks.{Marks};

use objects::Object;

// Entries of a table.
pub const MOST: usize = 128;

// Elements have 12 bits.
pub const ELEMENTS: usize = 4096;

// A table whose used entries are sound and of one element each: the first `len` of its entries. `slots` has one more than the slot of each element's entry,
// and 0 for an element that has none, since a call has to clear it and a byte is the least of each. No slot before `passed` is free.
#[derive(Drop)]
pub struct Table {
    pub entries: [Object; MOST],
    pub len: usize,
    pub slots: [u8; ELEMENTS],
    pub passed: usize,
    pub ghost wide: { length entries ≡ 128 },
    pub ghost few: { len ≤ 128 },
    pub ghost noted: { Marks (take len entries) slots },
    pub ghost none_free: { passed ≤ place free (take len entries) },
}
