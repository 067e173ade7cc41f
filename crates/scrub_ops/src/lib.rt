#![tactic(auto)]
// The writes of a scrub and their bytes: a payload, or a Sync up to its first payload.
ghost use Rattle.std.specs.Prelude.{◌≡◌, [], ◌+◌, ◌≤◌, length};
ghost use Rattle.runs.specs.Over.{Wrote};
ghost use Rattle.runs.specs.Those.{Each};
ghost use Rattle.scrub_ops.specs.Ops.{op_bytes, ops_bytes, OpFits, SomeFits};

// One write: a payload under a tag, its value a stretch of the pack; or a Sync before `size` bytes of payloads.
#[derive(Clone, Copy)]
pub enum Op {
    Put {
        tag: u32,
        start: u32,
        len: u32,
    },
    Open {
        size: u32,
        offset: u16,
        duration: u16,
    },
}

// A payload: tag, shortest length, value.
fn write_put(p: &[u8], tag: u32, start: u32, len: u32, out: &mut [u8], at: usize) -> usize
    requires { (at + length (op_bytes p.now (Op.Put tag start len)) ≤ length out.old) × OpFits p.now (Op.Put tag start len) }
    ensures { Wrote out.old at (op_bytes p.now (Op.Put tag start len)) result out.new }
{
    let first = start as usize;
    let end = first + len as usize;
    let a = numbers::write_tag(out, at, tag);
    let b = numbers::write_length(out, a, len);
    runs::copy(out, b, &p[first..end])
}

// A Sync up to its first payload.
fn write_open(size: u32, offset: u16, duration: u16, out: &mut [u8], at: usize) -> usize
    requires { (at + length (op_bytes [] (Op.Open size offset duration)) ≤ length out.old) × OpFits [] (Op.Open size offset duration) }
    ensures { Wrote out.old at (op_bytes [] (Op.Open size offset duration)) result out.new }
{
    let a = numbers::write_tag(out, at, 2);
    let b = numbers::write_length(out, a, 4 + size);
    let last = numbers::write_be16(out, b, offset);
    numbers::write_be16(out, last, duration)
}

fn write_op(p: &[u8], op: Op, out: &mut [u8], at: usize) -> usize
    requires { (at + length (op_bytes p.now op) ≤ length out.old) × OpFits p.now op }
    ensures { Wrote out.old at (op_bytes p.now op) result out.new }
{
    match op {
        Op::Put { tag, start, len } => write_put(p, tag, start, len, out, at),
        Op::Open {
            size,
            offset,
            duration,
        } => write_open(size, offset, duration, out, at),
    }
}

// The writes, one after the other; at a place that holds none nothing is written.
pub fn write_ops(p: &[u8], ops: &[Option<Op>], out: &mut [u8], at: usize) -> usize
    requires { (at + length (ops_bytes p.now ops.now) ≤ length out.old) × Each (SomeFits p.now) ops.now }
    ensures { Wrote out.old at (ops_bytes p.now ops.now) result out.new }
{
    let mut next = at;
    for op in ops {
        if let Some(op) = *op {
            next = write_op(p, op, out, next);
        }
    }
    next
}
