#![tactic(auto)]
// What a sheet keeps of a reading, and the tags that kept labels get.
ghost use Rattle.std.specs.Prelude.{◌≡◌, false, ℕ, List, [], ◌∷◌, ◌++◌, ◌+◌, ◌<◌, ◌≤◌, Option, IfSome, length, take, get_or, replicate};
ghost use Rattle.runs.specs.Those.{Each};
ghost use Rattle.pack.specs.Fixed.{item_cap, mapping_cap};
ghost use Rattle.pack.specs.Slots.{padded};
ghost use Rattle.pack.specs.Fits.{NameFits, ItemFits};
ghost use Rattle.pack.specs.declared.Name.{Name as AName};
ghost use Rattle.scrub_names.specs.Marks.{flags_of, mark_name, mark_item, marks_of, Noted, HasLabel};
ghost use Rattle.scrub_names.specs.Given.{clear_at, given, unmapped, mapped, by_index};

use pack::{Item, Name};
use scrub_config::Mapping;
use scrub_sheet::Sheet;

// What is noted of the items of a reading: for each the name under which it stays; the labels that stay, as indices of mappings, in order of first
// appearance, how many they are and which; and which of the numbers 64 to 127 stay. Arrays, since there is no heap.
#[derive(Clone, Copy)]
pub struct Names {
    pub marks: [Option<Name>; 64],
    pub order: [u32; 64],
    pub labels: usize,
    pub listed: [bool; 32],
    pub taken: [bool; 64],
}

// For each label of the pack whether the sheet keeps it.
pub fn flags(sheet: &Sheet<'_>, p: &[u8], places: &[u32]) -> [bool; 32]
    requires { (length places.now ≤ 32) × Each (HasLabel p.now) places.now }
    ensures { result ≡ padded mapping_cap false (flags_of sheet.now p.now places.now) }
{
    let mut kept = [false; 32];
    for (i, place) in places.iter().enumerate() {
        kept[i] = sheet.keeps_label(p, *place as usize);
    }
    kept
}

// The name, if its payloads stay.
#[tactic(auto, unfolding(crate::specs::Marks::mark_name))]
fn mark_name(sheet: &Sheet<'_>, flags: &[bool; 32], name: Name) -> Option<Name>
    requires { NameFits name }
    ensures { result ≡ mark_name flags.now sheet.now name }
{
    let stays = match name {
        Name::Label(i) => flags[i as usize],
        Name::Number(t) => sheet.keeps_number(t),
    };
    if !stays {
        return None;
    }
    Some(name)
}

// The name under which an item stays. A Sync has none.
#[tactic(auto, unfolding(crate::specs::Marks::mark_item))]
fn mark_item(sheet: &Sheet<'_>, flags: &[bool; 32], item: Item) -> Option<Name>
    requires { ItemFits item }
    ensures { result ≡ mark_item flags.now sheet.now item }
{
    match item {
        Item::Single(x) => mark_name(sheet, flags, x.name),
        Item::Inner(x) => mark_name(sheet, flags, x.name),
        Item::Sync(_) => None,
    }
}

// Where the label of the mapping `i` stands, 0 where no place is told.
fn place_of(places: &[u32], i: usize) -> u32
    ensures { result ≡ get_or places.now i 0 }
{
    if i < places.len() {
        return places[i];
    }
    0
}

// The first clear mark from `from` on, or the place after the marks.
fn clear_from(taken: &[bool; 64], from: usize) -> usize
    ensures place { result ≡ clear_at taken.now from }
    ensures near { result ≤ from + 64 }
{
    for next in from..64 {
        if !taken[next] {
            return next;
        }
    }
    from.max(64)
}

impl Names {
    // Nothing is noted.
    pub fn new() -> Names
        ensures { Noted [] result }
    {
        Names {
            marks: [None; 64],
            order: [0; 64],
            labels: 0,
            listed: [false; 32],
            taken: [false; 64],
        }
    }

    // Notes what stays of the items of a reading, where nothing is noted yet. In place, since a result of this size would be copied.
    pub fn note(&mut self, sheet: &Sheet<'_>, flags: &[bool; 32], items: &[Item])
        requires { (length items.now ≤ 64) × Each ItemFits items.now × Noted [] self.old }
        ensures { Noted (marks_of flags.now sheet.now items.now) self.new }
    {
        for (i, item) in items.iter().enumerate() {
            let mark = mark_item(sheet, flags, *item);
            self.add(i, mark);
        }
    }

    // Notes the mark of the item at `at`, the next one.
    fn add(&mut self, at: usize, mark: Option<Name>)
        requires { (at < 64) × (self.old.labels ≤ at) × IfSome mark NameFits }
        ensures { (ms : List (Option AName)) → length ms ≡ at → Noted ms self.old → Noted (ms ++ mark ∷ []) self.new }
    {
        self.marks[at] = mark;
        match mark {
            None => {}
            Some(Name::Number(t)) => {
                if t >= 64 && t < 128 {
                    self.taken[t as usize - 64] = true;
                }
            }
            Some(Name::Label(k)) => {
                if !self.listed[k as usize] {
                    self.listed[k as usize] = true;
                    self.order[self.labels] = k;
                    self.labels += 1;
                }
            }
        }
    }

    // The mappings of the labels that stay, in their order, into `mappings`, which comes empty. Each gets as its tag the smallest number from 64 up that no
    // kept payload has and no earlier label took. A label that has no place stands at 0.
    pub fn assign(&self, places: &[u32], mappings: &mut [Mapping; 64])
        requires { (self.now.labels ≤ 64) × (mappings.old ≡ replicate 64 unmapped) }
        ensures { mappings.new ≡ padded item_cap unmapped (mapped places.now (take self.now.labels self.now.order) (given self.now.taken 0 self.now.labels)) }
    {
        let mut next: usize = 0;
        for k in 0..self.labels {
            let index = self.order[k];
            let free = clear_from(&self.taken, next);
            mappings[k] = Mapping {
                index,
                place: place_of(places, index as usize),
                tag: 64 + free as u32,
            };
            next = free + 1;
        }
    }
}

// The new tags by the index of the mapping, 0 where a label goes.
pub fn by_index(mappings: &[Mapping]) -> [u32; 32]
    requires { Each (λ m. m.index < mapping_cap) mappings.now }
    ensures { result ≡ by_index mappings.now }
{
    let mut index = [0u32; 32];
    for k in (0..mappings.len()).rev() {
        index[mappings[k].index as usize] = mappings[k].tag;
    }
    index
}
