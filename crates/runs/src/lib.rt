#![tactic(auto)]
// Runs of bytes in a lent buffer: the copy and the clearing that every writer shares.
ghost use Rattle.std.specs.Prelude.{◌≡◌, ◌+◌, ◌-◌, ◌≤◌, length, replicate};
ghost use Rattle.runs.specs.Over.{over, Wrote};

// Copies `src` into `out` from `at` on and answers the place after it. The caller has seen that it fits. Byte by byte: by the library's copy of a slice the
// archive would need `memmove` from outside, which nothing else in it does.
pub fn copy(out: &mut [u8], at: usize, src: &[u8]) -> usize
    requires { at + length src.now ≤ length out.old }
    ensures { Wrote out.old at src.now result out.new }
{
    for i in 0..src.len() {
        out[at + i] = src[i];
    }
    at + src.len()
}

// Makes 0 of every byte of `out` from `at` on.
pub fn clear(out: &mut [u8], at: usize)
    requires { at ≤ length out.old }
    ensures { out.new ≡ over out.old at (replicate (length out.old - at) 0) }
{
    out[at..].fill(0);
}
