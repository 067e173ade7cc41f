// What mappings tell of a tag and of a label, and one mapping more.
ghost use Rattle.std.specs.Prelude.{◌≡◌, false, ◌+◌, ◌<◌, ◌≤◌, ◌^◌, length, take, drop};
ghost use Rattle.runs.specs.Same.{among, listed};
ghost use Rattle.pack.specs.Fixed.{mapping_cap};
ghost use Rattle.pack.specs.Payloads.{name_of};
ghost use Rattle.pack.specs.Config.{clashes};
ghost use Rattle.pack_config.specs.Index.{standing, LabelsLie};
ghost use Rattle.pack_config.specs.Columns.{None, Added, Judging};

use crate::table::Mappings;
use pack::Name;

impl Mappings {
    // Those of a pack that maps nothing.
    pub fn none() -> Self
        ensures { None result }
    {
        Mappings {
            count: 0,
            tags: [0; 32],
            places: [0; 32],
            known: [0; 128],
        }
    }

    // The name of a payload with this tag, looked for among the tags: the index of its mapping, or the tag itself.
    fn search(&self, tag: u32) -> Name
        ensures { result ≡ name_of (take self.now.count self.now.tags) tag }
    {
        for i in 0..self.count {
            if self.tags[i] == tag {
                return Name::Label(i as u32);
            }
        }
        Name::Number(tag)
    }

    // The same by the index, for a tag of one byte.
    pub fn name(&self, tag: u32) -> Name
        ensures { result ≡ name_of (take self.now.count self.now.tags) tag }
    {
        if 128 <= tag {
            return self.search(tag);
        }
        let index = self.known[tag as usize] as u32;
        if index == 0 {
            return Name::Number(tag);
        }
        Name::Label(index - 1)
    }

    // Whether the tag is mapped.
    fn has_tag(&self, tag: u32) -> bool
        ensures { result ≡ among tag (take self.now.count self.now.tags) }
    {
        match self.name(tag) {
            Name::Label(_) => true,
            Name::Number(_) => false,
        }
    }

    // Whether the label at `at` of the part is one of those that are mapped.
    fn has_label(&self, c: &[u8], at: usize) -> bool
        requires { (at + 16 ≤ length c.now) × LabelsLie c.now (take self.now.count self.now.places) }
        ensures { result ≡ listed (take 16 (drop at c.now)) (standing c.now (take self.now.count self.now.places)) }
    {
        for i in 0..self.count {
            if labels::same_label(c, self.places[i] as usize, c, at) {
                return true;
            }
        }
        false
    }

    // MAP: a fixed tag, one of the three labels, or a tag or label that is mapped already. Where `mark` is 0, no mapped label has the digest of this one.
    pub(crate) fn clashes(&self, c: &[u8], tag: u32, at: usize, mark: u8) -> bool
        requires { Judging c.now self.now at mark }
        ensures { result ≡ clashes (take self.now.count self.now.tags) (standing c.now (take self.now.count self.now.places)) tag (take 16 (drop at c.now)) }
    {
        if tag <= 3 {
            return true;
        }
        if pack::is_utility(c, at) {
            return true;
        }
        if self.has_tag(tag) {
            return true;
        }
        if mark == 0 {
            return false;
        }
        self.has_label(c, at)
    }

    // One mapping more, of a tag that is not mapped.
    pub(crate) fn add(&mut self, tag: u32, place: usize)
        requires { (self.old.count < mapping_cap) × (place < 2 ^ 32) × (among tag (take self.old.count self.old.tags) ≡ false) }
        ensures { Added self.old tag place self.new }
    {
        self.tags[self.count] = tag;
        self.places[self.count] = place as u32;
        self.count += 1;
        if tag < 128 {
            self.known[tag as usize] = self.count as u8;
        }
    }
}
