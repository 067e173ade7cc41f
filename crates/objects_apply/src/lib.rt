#![tactic(auto)]
// Works out a call on a copy of a lent table, which goes back where the call is not refused. Where each element stands is noted once, when the table is
// judged, so that no record looks for its entry.
ghost use Rattle.std.specs.Prelude.{◌≡◌, ◌+◌, ◌*◌, ◌<◌, ◌≤◌, [], ◌∷◌, ◌++◌, length, true, false, Option, Some, cond, ltb, nat_eq, MatchResult, OnOk};
ghost use Rattle.runs.specs.Finding.{change};
ghost use Rattle.refusals.specs.Refusals.{refused_at};
ghost use Rattle.refusals.specs.declared.Refusal.TheVariants as R;
ghost use Rattle.pmd.specs.Reading.{read_as};
ghost use Rattle.pmd.specs.declared.Kind.TheVariants as K;
ghost use Rattle.objects.specs.Entries.{moved, names};
ghost use Rattle.objects.specs.Table.{judged};
ghost use Rattle.objects.specs.Calls.{aod, xyz, clear, put, Sound};
ghost use Rattle.objects_pmd.specs.Values.{good, aod_at, xyz_at, aods_of, aod_call, xyz_call, call_of};
ghost use Rattle.objects_apply.specs.Applied.{Applied};
ghost use Rattle.objects_apply.specs.Slots.{slot_of, seat_of, free_slot, follows, set_told, move_told};
ghost use Rattle.objects_apply.specs.Held.{held};
ghost use Rattle.objects_apply.specs.Worked.{Worked, moves_of, IsWithin};

mod table;

use objects::{Aod, Object, Xyz};
use pmd::{Field, Kind};
use refusals::{Refusal, Refused};
use table::{ELEMENTS, MOST, Table};

// An XYZ of so many bytes has no more numbers than a small array takes.
const FEW_BYTES: usize = 672;

// Whether a used entry's fields are those of a record of an AOD. Nearly every entry is sound, so all fields are looked at, with no branch between them.
fn sound(o: Object) -> bool
    ensures { result ≡ good o }
{
    Field::Element.takes(12, o.element)
        & Field::Class.takes(4, o.class)
        & Field::Dynamic.takes(1, o.dynamic)
        & Field::Coordinate.takes(10, o.x)
        & Field::Coordinate.takes(10, o.y)
        & Field::Coordinate.takes(10, o.z)
        & Field::Size.takes(5, o.size)
        & Field::Size3d.takes(1, o.size3d)
        & Field::Diverge.takes(1, o.diverge)
        & Field::Source.takes(8, o.source)
        & Field::Gain.takes(6, o.gain)
}

fn aod_at(numbers: &[u32], at: usize) -> Aod
    requires { at + 11 ≤ length numbers.now }
    ensures { result ≡ aod_at numbers.now at }
{
    Aod {
        element: numbers[at],
        class: numbers[at + 1],
        dynamic: numbers[at + 2],
        x: numbers[at + 3],
        y: numbers[at + 4],
        z: numbers[at + 5],
        size: numbers[at + 6],
        size3d: numbers[at + 7],
        diverge: numbers[at + 8],
        source: numbers[at + 9],
        gain: numbers[at + 10],
    }
}

fn xyz_at(numbers: &[u32], at: usize) -> Xyz
    requires { at + 4 ≤ length numbers.now }
    ensures { result ≡ xyz_at numbers.now at }
{
    Xyz {
        element: numbers[at],
        x: numbers[at + 1],
        y: numbers[at + 2],
        z: numbers[at + 3],
    }
}

impl Table {
    fn empty() -> Table
        ensures { held result ≡ [] }
    {
        Table {
            entries: [Object::default(); MOST],
            len: 0,
            slots: [0; ELEMENTS],
            passed: 0,
        }
    }

    // The slot of an element's entry.
    fn slot(&self, element: u32) -> Option<usize>
        ensures { result ≡ slot_of (held self.now) element }
    {
        let mark = *self.slots.get(element as usize)?;
        usize::from(mark).checked_sub(1)
    }

    // Whether an entry may follow those that are there: a used one is sound and has an element that none of them has.
    fn may_follow(&self, o: Object) -> bool
        ensures { result ≡ follows (held self.now) o }
    {
        if o.is_free() {
            return true;
        }
        sound(o) && self.slot(o.element).is_none()
    }

    fn push(&mut self, o: Object)
        requires room { self.old.len < 128 }
        requires next { follows (held self.old) o ≡ true }
        ensures { held self.new ≡ held self.old ++ (o ∷ []) }
    {
        self.entries[self.len] = o;
        self.len += 1;
        if !o.is_free() {
            self.slots[o.element as usize] = self.len as u8;
        }
    }

    // Takes the entries of a lent table, or refuses it.
    fn load(&mut self, lent: &[Object]) -> Result<(), Refused>
        requires { held self.old ≡ [] }
        ensures { MatchResult result (λ _. (judged good lent.now ≡ true) × (held self.new ≡ lent.now)) (λ r. (judged good lent.now ≡ false) × (r ≡ refused_at R.Table 0)) }
    {
        if MOST < lent.len() {
            return Err(Refusal::Table.at(0));
        }
        for o in lent {
            if !self.may_follow(*o) {
                return Err(Refusal::Table.at(0));
            }
            self.push(*o);
        }
        Ok(())
    }

    // The first free slot. All searches together pass over the table once.
    fn free_slot(&mut self) -> Option<usize>
        ensures found { result ≡ free_slot (held self.old) }
        ensures kept { held self.new ≡ held self.old }
    {
        for at in self.passed..self.len {
            if self.entries[at].is_free() {
                self.passed = at;
                return Some(at);
            }
        }
        None
    }

    // The slot for an element: that of its entry, or the first free one.
    fn seat(&mut self, element: u32) -> Option<usize>
        ensures found { result ≡ seat_of (held self.old) element }
        ensures kept { held self.new ≡ held self.old }
    {
        match self.slot(element) {
            Some(at) => Some(at),
            None => self.free_slot(),
        }
    }

    // Sets the entry of a record.
    fn set(&mut self, r: Aod) -> Result<(), Refused>
        requires used { nat_eq r.element 0 ≡ false }
        requires small { r.element < 4096 }
        ensures told { result ≡ set_told (held self.old) r.element }
        ensures table { OnOk result (held self.new ≡ put r (held self.old)) }
    {
        let Some(at) = self.seat(r.element) else {
            return Err(Refusal::Full.at(0));
        };
        self.entries[at] = Object::from(r);
        self.slots[r.element as usize] = (at + 1) as u8;
        Ok(())
    }

    // Sets the records of an AOD, one after the other.
    fn set_all(&mut self, numbers: &[u32]) -> Result<usize, Refused>
        requires { Sound good (aod (aods_of numbers.now)) }
        ensures { Worked (aod (aods_of numbers.now)) (held self.old) result (held self.new) }
    {
        let count = numbers.len() / 11;
        for k in 0..count {
            self.set(aod_at(numbers, 11 * k))?;
        }
        Ok(count)
    }

    // Moves the entry that the record `k` of a value names.
    fn shift(&mut self, m: Xyz, k: usize) -> Result<(), Refused>
        ensures told { result ≡ move_told (held self.old) m.element k }
        ensures table { OnOk result (held self.new ≡ change (names m.element) (moved m) (held self.old)) }
    {
        let Some(at) = self.slot(m.element) else {
            return Err(Refusal::Unknown.at(k));
        };
        let o = self.entries[at];
        if o.dynamic == 0 {
            return Err(Refusal::Static.at(k));
        }
        self.entries[at] = o.moved(m);
        Ok(())
    }

    // Moves the entries that the records of an XYZ name, one after the other. A move changes neither which elements are there nor which are dynamic, so
    // each record can be judged when it is its turn.
    fn shift_all(&mut self, numbers: &[u32]) -> Result<usize, Refused>
        ensures { Worked (xyz (moves_of numbers.now)) (held self.old) result (held self.new) }
    {
        let count = numbers.len() / 4;
        for k in 0..count {
            self.shift(xyz_at(numbers, 4 * k), k)?;
        }
        Ok(count)
    }

    // Reads an AOD and sets its records. No value has more numbers than the array takes.
    fn apply_aod(&mut self, value: &[u8]) -> Result<usize, Refused>
        ensures { Worked (aod_call (read_as (Some K.Aod) value.now)) (held self.old) result (held self.new) }
    {
        let mut numbers = [0; 5291];
        let count = pmd_read::pmd_read(3, value, &mut numbers)?;
        self.set_all(&numbers[0..count])
    }

    // Reads an XYZ of no more than N numbers and moves what its records name. Its first number is the sample_time.
    fn apply_few<const N: usize>(&mut self, value: &[u8]) -> Result<usize, Refused>
        requires few { IsWithin N (read_as (Some K.Xyz) value.now) }
        requires small { N ≤ 3121 }
        ensures { Worked (xyz_call (read_as (Some K.Xyz) value.now)) (held self.old) result (held self.new) }
    {
        let mut array = [0; N];
        let numbers = &mut array[..];
        let count = pmd_read::pmd_read(4, value, &mut *numbers)?;
        self.shift_all(&numbers[1..count])
    }

    // Reads an XYZ and moves what its records name. Most values are short, and to clear an array with room for any value costs time in every call.
    fn apply_xyz(&mut self, value: &[u8]) -> Result<usize, Refused>
        ensures { Worked (xyz_call (read_as (Some K.Xyz) value.now)) (held self.old) result (held self.new) }
    {
        if value.len() <= FEW_BYTES {
            self.apply_few::<512>(value)
        } else {
            self.apply_few::<3121>(value)
        }
    }

    // Applies a value of this kind.
    fn apply(&mut self, kind: u32, value: &[u8]) -> Result<usize, Refused>
        ensures { Worked (call_of kind value.now) (held self.old) result (held self.new) }
    {
        match Kind::try_from(kind)? {
            Kind::Aod => self.apply_aod(value),
            Kind::Xyz => self.apply_xyz(value),
            _ => Err(Refusal::Kind.at(0)),
        }
    }
}

// Applies a value of this kind to a lent table: an AOD sets entries whole, an XYZ moves those that are there. Answers how many records were applied. A refusal
// changes no entry.
pub fn apply(kind: u32, value: &[u8], table: &mut [Object]) -> Result<usize, Refused>
    ensures { Applied (call_of kind value.now) table.old result table.new }
{
    let mut copy = Table::empty();
    copy.load(&*table)?;
    let count = copy.apply(kind, value)?;
    table.copy_from_slice(&copy.entries[0..copy.len]);
    Ok(count)
}

// Clears the entry of an element in a lent table. A refusal changes no entry.
pub fn clear(element: u32, table: &mut [Object]) -> Result<usize, Refused>
    ensures { Applied (clear element) table.old result table.new }
{
    let mut judged = Table::empty();
    judged.load(&*table)?;
    let Some(at) = judged.slot(element) else {
        return Err(Refusal::Unknown.at(0));
    };
    table[at] = Object::default();
    Ok(1)
}
