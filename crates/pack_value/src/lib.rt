#![tactic(auto)]
// A payload's value and a mapping's label: the very stretches of the pack that a reading speaks of.
ghost use Rattle.std.specs.Prelude.{◌≡◌};
ghost use Rattle.pack.specs.Meaning.{stretch_in, value_of, label_at};

use pack::{Payload, Stretch};

// The bytes of a stretch of the pack: none, if it does not lie in the pack.
pub fn stretch(pack: &[u8], place: Stretch) -> &[u8]
    ensures { result.now ≡ stretch_in pack.now place.start place.len }
{
    let start = place.start;
    if pack.len() < start {
        return &pack[0..0];
    }
    if pack.len() - start < place.len {
        return &pack[0..0];
    }
    let end = start + place.len;
    &pack[start..end]
}

// A payload's value: the very stretch of the pack that it was read from.
pub fn value(pack: &[u8], x: Payload) -> &[u8]
    ensures { result.now ≡ value_of pack.now x }
{
    let place = Stretch {
        start: x.value_start as usize,
        len: x.value_len as usize,
    };
    stretch(pack, place)
}

// The label of a mapping, by its place in the pack.
pub fn label(pack: &[u8], place: u32) -> &[u8]
    ensures { result.now ≡ label_at pack.now place }
{
    let start = place as usize;
    stretch(pack, Stretch { start, len: 16 })
}
