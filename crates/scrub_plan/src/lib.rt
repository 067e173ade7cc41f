#![tactic(auto)]
// The plan pass: from the items of a reading and the names that stay, the writes and their size.
ghost use Rattle.std.specs.Prelude.{◌≡◌, ◌+◌, ◌≤◌, None, length, replicate};
ghost use Rattle.runs.specs.Those.{Each};
ghost use Rattle.scrub_plan.specs.Planned.{written, tag_of, sized, item_plan, nothing, Plans, ItemSmall, MarkFits};
ghost use Rattle.pack.specs.declared.Item.TheVariants as I;

use pack::{Head, Item, Name, Payload};
use scrub_ops::Op;

// What an item adds: its write, the bytes inside a Sync that is still to come, and its size.
#[derive(Clone, Copy)]
pub struct ItemPlan {
    pub op: Option<Op>,
    pub inner: u32,
    pub size: u32,
}

// The tag, but for 0, with which nothing is written.
fn written(tag: u32) -> Option<u32>
    ensures { result ≡ written tag }
{
    if tag == 0 {
        return None;
    }
    Some(tag)
}

// The tag that an item is written with, if its name stays. `index` has the new tags of labels, 0 where a label goes.
fn tag_of(mark: Option<Name>, index: &[u32; 32]) -> Option<u32>
    requires { MarkFits mark }
    ensures { result ≡ tag_of index.now mark }
{
    match mark {
        None => None,
        Some(Name::Number(t)) => written(t),
        Some(Name::Label(i)) => written(index[i as usize]),
    }
}

fn element_size(tag: u32, len: u32) -> u32
    requires { len ≤ 32768 }
    ensures size { result ≡ sized tag len }
    ensures small { result ≤ 40000 }
{
    (numbers::tag_size(tag) + numbers::length_size(len)) as u32 + len
}

// What goes adds nothing.
fn nothing() -> ItemPlan
    ensures { result ≡ nothing }
{
    ItemPlan {
        op: None,
        inner: 0,
        size: 0,
    }
}

// The plan of a payload outside a Sync, with its tag.
#[tactic(auto, unfolding(crate::specs::Planned::item_plan))]
fn plan_payload(x: Payload, tag: Option<u32>) -> ItemPlan
    requires { x.value_len ≤ 32768 }
    ensures plan { result ≡ item_plan (I.Single x) tag 0 }
    ensures small { result.size ≤ 40000 }
    ensures closed { result.inner ≡ 0 }
{
    match tag {
        None => nothing(),
        Some(tag) => {
            let size = element_size(tag, x.value_len);
            let op = Some(Op::Put {
                tag,
                start: x.value_start,
                len: x.value_len,
            });
            ItemPlan { op, inner: 0, size }
        }
    }
}

// The plan of a Sync, before `inner` bytes of payloads.
fn plan_sync(h: Head, inner: u32) -> ItemPlan
    requires { inner ≤ 3000000 }
    ensures plan { result ≡ item_plan (I.Sync h) None inner }
    ensures small { result.size ≤ 40000 }
    ensures closed { result.inner ≡ 0 }
{
    if inner == 0 {
        return nothing();
    }
    let n = numbers::length_size(4 + inner) as u32;
    let op = Some(Op::Open {
        size: inner,
        offset: h.offset,
        duration: h.duration,
    });
    ItemPlan {
        op,
        inner: 0,
        size: 1 + (n + 4),
    }
}

// The plan of an item with its tag, before `inner` bytes of payloads inside the same Sync.
fn plan_item(item: Item, tag: Option<u32>, inner: u32) -> ItemPlan
    requires { ItemSmall item × (inner ≤ 3000000) }
    ensures plan { result ≡ item_plan item tag inner }
    ensures small { result.size ≤ 40000 }
    ensures within { result.inner ≤ inner + result.size }
{
    match item {
        Item::Single(x) => plan_payload(x, tag),
        Item::Inner(x) => {
            let plan = plan_payload(x, tag);
            let op = plan.op;
            let n = plan.size;
            ItemPlan {
                op,
                inner: n + inner,
                size: n,
            }
        }
        Item::Sync(h) => plan_sync(h, inner),
    }
}

// Plans the items: fills `ops`, which comes empty, and answers how many bytes the writes make.
pub fn plan_items(
    items: &[Item],
    marks: &[Option<Name>; 64],
    index: &[u32; 32],
    ops: &mut [Option<Op>; 64],
) -> u32
    requires { (length items.now ≤ 64) × Each ItemSmall items.now × Each MarkFits marks.now × (ops.old ≡ replicate 64 None) }
    ensures { Plans index.now items.now marks.now (record { ops = ops.new; size = result }) }
{
    let mut inner: u32 = 0;
    let mut size: u32 = 0;
    for i in (0..items.len()).rev() {
        let tag = tag_of(marks[i], index);
        let plan = plan_item(items[i], tag, inner);
        ops[i] = plan.op;
        inner = plan.inner;
        size += plan.size;
    }
    size
}
