#![tactic(auto)]
// Writes lists of numbers as PMD values. A list is judged and weighed in a first pass and put in a second, so that a refusal changes nothing.
ghost use Rattle.std.specs.Prelude.{◌≡◌, cond, ◌*◌, leb, length, slice_index};
ghost use Rattle.refusals.specs.Outcomes.{answered};
ghost use Rattle.refusals.specs.Refusals.{refused_at};
ghost use Rattle.refusals.specs.declared.Refusal.TheVariants as R;
ghost use Rattle.refusals.specs.Lent.{within, Delivered};
ghost use Rattle.pmd.specs.Table.{width_of};
ghost use Rattle.pmd.specs.Records.{fits};
ghost use Rattle.pmd.specs.Writing.{packing, write_all, fields_written};
ghost use Rattle.pmd.specs.Shapes.{Roomy};
ghost use Rattle.pmd_write.specs.ByShape.{free_from, write_shape, weight};

use bits::Pen;
use pmd::{Field, Kind, PARAMETERS, Shape};
use refusals::{Refusal, Refused};

// The bits of a value of 4,096 bytes: no value has more.
const MOST_BITS: usize = 32768;

// From which number on a field takes every number of its width, for most numbers need no look at the field's own rule: from 0 or 1 on, or from none on
// that its width has.
fn free_from(field: Field) -> u32
    ensures { result ≡ free_from field }
{
    match field {
        Field::Presentation
        | Field::Element
        | Field::Coordinate
        | Field::Substream
        | Field::Turnaround => 1,
        Field::SpeakerConfig
        | Field::Langcod
        | Field::Class
        | Field::FrameRate
        | Field::ProgramConfig => 1 << 15,
        _ => 0,
    }
}

// Whether a field of w bits takes the number v, by the field's rule. Few numbers of rows come to this, so it stays out of their loops.
#[cold]
#[inline(never)]
fn by_rule(field: Field, w: usize, v: u32) -> bool
    requires { w ≡ width_of field }
    ensures { result ≡ fits field v }
{
    field.takes(w, v)
}

// Whether a field of w bits takes the number v: every number from `free` on, and others by the field's rule. Turnarounds come to the rule more often, and
// their loop holds more than fits beside a call, so they have the rule in it.
#[inline(always)]
fn takes<const TURNAROUNDS: bool>(field: Field, free: u32, w: usize, v: u32) -> bool
    requires { (w ≡ width_of field) × (free ≡ free_from field) }
    ensures { result ≡ fits field v }
{
    if v < 1 << w && free <= v {
        return true;
    }
    if TURNAROUNDS {
        return field.takes(w, v);
    }
    by_rule(field, w, v)
}

// The number n of a list, which a field of w bits has to take. Each loop has its own copy: as a call it took half as long again.
#[inline(always)]
fn taken<const TURNAROUNDS: bool>(
    numbers: &[u32],
    n: usize,
    field: Field,
    free: u32,
    w: usize,
) -> Result<u32, Refused>
    requires { (w ≡ width_of field) × (free ≡ free_from field) }
    ensures { result ≡ cond (leb (length numbers.now) n) (Err (refused_at R.Bits n)) (cond (fits field (slice_index numbers.now n)) (Ok (slice_index numbers.now n)) (Err (refused_at R.Field n))) }
{
    if numbers.len() <= n {
        return Err(Refusal::Bits.at(n));
    }
    let v = numbers[n];
    if !takes::<TURNAROUNDS>(field, free, w, v) {
        return Err(Refusal::Field.at(n));
    }
    Ok(v)
}

fn choose(first: bool, a: usize, b: usize) -> usize
    ensures { result ≡ cond first a b }
{
    if first { a } else { b }
}

// How many bits the numbers take as records of this shape, or what is wrong with them. A list may be so long that no count holds its bits: one of
// more numbers than a value has bits, each of which takes a bit at least, is judged and not weighed.
// Three loops of their own, as in the reader: the numbers say how many records there are, which pieces a flag passes over, and whether a piece has
// another field. They stay out of their caller, which else would hand out its registers to both passes.
#[inline(never)]
fn weigh<const TURNAROUNDS: bool>(shape: Shape, numbers: &[u32]) -> Result<usize, Refused>
    ensures { result ≡ answered (weight numbers.now) (write_shape TURNAROUNDS shape numbers.now) }
{
    let few = numbers.len() <= MOST_BITS;
    let mut total = choose(few, 0, MOST_BITS + 1);
    let mut n: usize = 0;
    let mut i: usize = 0;
    'records: loop {
        'pieces: while i < shape.size {
            let piece = shape.pieces[i];
            let width = piece.width as usize;
            let free = free_from(piece.field);
            let last = 'fields: loop {
                let v = taken::<TURNAROUNDS>(numbers, n, piece.field, free, width)?;
                total += choose(few, width, 0);
                n += 1;
                if piece.has_partner::<TURNAROUNDS>() {
                    taken::<TURNAROUNDS>(numbers, n, Field::Parameters, 0, PARAMETERS)?;
                    total += choose(few, PARAMETERS, 0);
                    n += 1;
                }
                if !piece.goes_on(v) {
                    break v;
                }
            };
            i += 1 + piece.passes::<TURNAROUNDS>(last);
        }
        if numbers.len() <= n {
            return Ok(total);
        }
        i = shape.again;
    }
}

// Puts numbers that were weighed and have room, in the loops of `weigh`, and answers how many bytes they are.
#[inline(never)]
fn put<const TURNAROUNDS: bool>(shape: Shape, numbers: &[u32], out: &mut [u8]) -> usize
    requires { Roomy (write_shape TURNAROUNDS shape numbers.now) (8 * length out.old) }
    ensures { Delivered (packing (write_shape TURNAROUNDS shape numbers.now)) out.old (Ok result) out.new }
{
    let mut pen = Pen::new();
    let mut n: usize = 0;
    let mut i: usize = 0;
    'records: loop {
        'pieces: while i < shape.size {
            let piece = shape.pieces[i];
            let width = piece.width as usize;
            let last = 'fields: loop {
                let v = u32::from(piece.field.value(numbers[n]));
                pen.put(&mut *out, width, v);
                n += 1;
                if piece.has_partner::<TURNAROUNDS>() {
                    let second = u32::from(Field::Parameters.value(numbers[n]));
                    pen.put(&mut *out, PARAMETERS, second);
                    n += 1;
                }
                if !piece.goes_on(v) {
                    break v;
                }
            };
            i += 1 + piece.passes::<TURNAROUNDS>(last);
        }
        if numbers.len() <= n {
            return pen.close(&mut *out);
        }
        i = shape.again;
    }
}

// How many bits the numbers take as a value of this kind, or what is wrong with them.
fn weigh_as(kind: Kind, numbers: &[u32]) -> Result<usize, Refused>
    ensures { result ≡ answered (weight numbers.now) (write_all kind numbers.now) }
{
    match kind {
        Kind::Etd => weigh::<true>(pmd::shape_of(kind), numbers),
        _ => weigh::<false>(pmd::shape_of(kind), numbers),
    }
}

// Puts the numbers of a value of this kind that were weighed and have room, and answers how many bytes they are. The shape is made anew: one that
// `weigh_as` hands on is copied, and the loops over it are slower.
fn put_as(kind: Kind, numbers: &[u32], out: &mut [u8]) -> usize
    requires { Roomy (write_all kind numbers.now) (8 * length out.old) }
    ensures { Delivered (packing (write_all kind numbers.now)) out.old (Ok result) out.new }
{
    match kind {
        Kind::Etd => put::<true>(pmd::shape_of(kind), numbers, &mut *out),
        _ => put::<false>(pmd::shape_of(kind), numbers, &mut *out),
    }
}

// Writes the numbers as a value of this kind into `out`, and answers how many bytes it is. Bytes after it do not change; a refusal
// changes none.
pub fn pmd_write(kind: u32, numbers: &[u32], out: &mut [u8]) -> Result<usize, Refused>
    ensures { Delivered (within (length out.old) (fields_written kind numbers.now)) out.old result out.new }
{
    let kind = Kind::try_from(kind)?;
    let total = weigh_as(kind, numbers)?;
    if MOST_BITS < total || out.len() < (total + 7) / 8 {
        return Err(Refusal::NoRoom.at(0));
    }
    Ok(put_as(kind, numbers, &mut *out))
}
