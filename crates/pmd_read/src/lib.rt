#![tactic(auto)]
// Reads PMD values into lent numbers. A value is judged and counted in a first pass and stored in a second, so that a refusal changes nothing.
ghost use Rattle.std.specs.Prelude.{◌≡◌, cond, ◌+◌, ◌-◌, ◌*◌, ◌<◌, ◌≤◌, eqb, ltb, length};
ghost use Rattle.bits.specs.Bits.{field_at};
ghost use Rattle.refusals.specs.Refusals.{refused_at};
ghost use Rattle.refusals.specs.declared.Refusal.TheVariants as R;
ghost use Rattle.refusals.specs.Outcomes.{answered};
ghost use Rattle.refusals.specs.Lent.{within, lent, Delivered};
ghost use Rattle.pmd.specs.Reading.{fields_read};
ghost use Rattle.pmd.specs.Shapes.{Roomy};
ghost use Rattle.pmd_read.specs.ByShape.{read_shape};

use pmd::{Field, Kind, PARAMETERS, Shape};
use refusals::{Refusal, Refused};

// The end of the w bits from bit `at` on, which have to be there.
fn end_of(s: &[u8], at: usize, w: usize) -> Result<usize, Refused>
    requires { (length s.now ≤ 4096) × ((at ≤ 8 * length s.now) × (w ≤ 15)) }
    ensures { result ≡ cond (ltb (8 * length s.now - at) w) (Err (refused_at R.Bits at)) (Ok (at + w)) }
{
    if 8 * s.len() - at < w {
        return Err(Refusal::Bits.at(at));
    }
    Ok(at + w)
}

// The answer for a value of n fields whose last `rest` bits, from bit `at` on, are no record: they must be 0.
fn ended(s: &[u8], at: usize, rest: usize, n: usize) -> Result<usize, Refused>
    requires { (length s.now ≤ 4096) × ((at + rest ≡ 8 * length s.now) × (rest < 8)) }
    ensures { result ≡ cond (eqb (field_at s.now at rest) 0) (Ok n) (Err (refused_at R.Pad at)) }
{
    if bits::fetch(s, at, rest) == 0 {
        return Ok(n);
    }
    Err(Refusal::Pad.at(at))
}

// How many fields a value of this shape has, or what is wrong with it. A parameter set is any number of its bits.
// Three loops of their own, since no iterator walks so: how many records there are is known at their end, a flag passes over pieces, and whether a
// piece has another field is said by the last.
fn count<const TURNAROUNDS: bool>(shape: Shape, s: &[u8]) -> Result<usize, Refused>
    requires { length s.now ≤ 4096 }
    ensures { result ≡ answered length (read_shape TURNAROUNDS shape s.now) }
{
    let mut at: usize = 0;
    let mut n: usize = 0;
    let mut i: usize = 0;
    'records: loop {
        'pieces: while i < shape.size {
            let piece = shape.pieces[i];
            let width = piece.width as usize;
            let last = 'fields: loop {
                let end = end_of(s, at, width)?;
                let v = bits::fetch(s, at, width);
                if !piece.field.value(v).holds() {
                    return Err(Refusal::Field.at(at));
                }
                at = end;
                n += 1;
                if piece.has_partner::<TURNAROUNDS>() {
                    at = end_of(s, at, PARAMETERS)?;
                    n += 1;
                }
                if !piece.goes_on(v) {
                    break v;
                }
            };
            i += 1 + piece.passes::<TURNAROUNDS>(last);
        }
        let rest = 8 * s.len() - at;
        if rest < 8 {
            return ended(s, at, rest, n);
        }
        i = shape.again;
    }
}

// Stores the fields of a value of this shape that was counted and has room, in the loops of `count`.
fn fill<const TURNAROUNDS: bool>(shape: Shape, s: &[u8], numbers: &mut [u32])
    requires { (length s.now ≤ 4096) × Roomy (read_shape TURNAROUNDS shape s.now) (length numbers.old) }
    ensures { numbers.new ≡ lent numbers.old (read_shape TURNAROUNDS shape s.now) }
{
    let mut at: usize = 0;
    let mut n: usize = 0;
    let mut i: usize = 0;
    'records: loop {
        'pieces: while i < shape.size {
            let piece = shape.pieces[i];
            let width = piece.width as usize;
            let last = 'fields: loop {
                let v = u32::from(piece.field.value(bits::fetch(s, at, width)));
                numbers[n] = v;
                at += width;
                n += 1;
                if piece.has_partner::<TURNAROUNDS>() {
                    numbers[n] = u32::from(Field::Parameters.value(bits::fetch(s, at, PARAMETERS)));
                    at += PARAMETERS;
                    n += 1;
                }
                if !piece.goes_on(v) {
                    break v;
                }
            };
            i += 1 + piece.passes::<TURNAROUNDS>(last);
        }
        if 8 * s.len() - at < 8 {
            return;
        }
        i = shape.again;
    }
}

// Reads a value of this shape as `pmd_read` does.
fn read_by<const TURNAROUNDS: bool>(
    shape: Shape,
    value: &[u8],
    numbers: &mut [u32],
) -> Result<usize, Refused>
    requires { length value.now ≤ 4096 }
    ensures { Delivered (within (length numbers.old) (read_shape TURNAROUNDS shape value.now)) numbers.old result numbers.new }
{
    let n = count::<TURNAROUNDS>(shape, value)?;
    if numbers.len() < n {
        return Err(Refusal::NoRoom.at(0));
    }
    fill::<TURNAROUNDS>(shape, value, &mut *numbers);
    Ok(n)
}

// Reads a value of this kind into `numbers`, and answers how many numbers it is: all its fields in order, terminators and characters
// included. Numbers after them do not change; a refusal changes none.
pub fn pmd_read(kind: u32, value: &[u8], numbers: &mut [u32]) -> Result<usize, Refused>
    ensures { Delivered (within (length numbers.old) (fields_read kind value.now)) numbers.old result numbers.new }
{
    let kind = Kind::try_from(kind)?;
    if 4096 < value.len() {
        return Err(Refusal::Big.at(0));
    }
    match kind {
        Kind::Etd => read_by::<true>(pmd::shape_of(kind), value, &mut *numbers),
        _ => read_by::<false>(pmd::shape_of(kind), value, &mut *numbers),
    }
}
