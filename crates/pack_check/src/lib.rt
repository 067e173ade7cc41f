#![tactic(auto)]
// The check of a pack: the walk over it that stores nothing.
ghost use Rattle.std.specs.Prelude.{◌≡◌, ◌+◌, ◌≤◌, length};
ghost use Rattle.refusals.specs.Outcomes.{answered};
ghost use Rattle.pack.specs.Payloads.{Ground};
ghost use Rattle.pack.specs.Items.{items_from};
ghost use Rattle.pack.specs.Inside.{InsideTold};
ghost use Rattle.pack.specs.Reading.{config_of, opening_at, checked};
ghost use Rattle.pack_check.specs.Counts.{counted, next_of};

use pack::{Step, Stretch};
use pack_config::Mappings;
use refusals::{Refusal, Refused};

// The payloads of the inside of a Sync, which stands at `base` of the pack: how many items and payloads there are with them, where `used` came
// before.
fn count_inside(q: &[u8], base: usize, used: usize) -> Result<usize, Refused>
    requires { (used ≤ 64) × (base + length q.now ≤ 32768) }
    ensures { (grounds : Ground) → InsideTold q.now grounds base used result }
{
    let mut n = used;
    let mut at: usize = 0;
    while at < q.len() {
        let element = match pack_item::inner_at(q, at, n) {
            Ok(element) => element,
            Err(why) => return Err(why.at(base + at)),
        };
        n += 1;
        at = element.value.start + element.value.len;
    }
    Ok(n)
}

// The items of the pack from `from` on.
fn count_items(s: &[u8], from: usize) -> Result<usize, Refused>
    requires { length s.now ≤ 32768 }
    ensures { (grounds : Ground) → result ≡ answered counted (items_from (length s.now) s.now grounds from 0) }
{
    let mut n: usize = 0;
    let mut at = from;
    while at < s.len() {
        match pack_item::item_at(s, at, n) {
            Err(why) => return Err(why.at(at)),
            Ok(Step::Close(value)) => {
                if pack_item::crc_good(s, value) {
                    return Ok(n);
                }
                return Err(Refusal::Crc.at(at));
            }
            Ok(Step::Plain(element)) => {
                n += 1;
                at = element.value.start + element.value.len;
            }
            Ok(Step::Open(value)) => {
                let base = value.start + 4;
                let end = value.start + value.len;
                let used = n + 1;
                let inside = count_inside(&s[base..end], base, used)?;
                if inside == used {
                    return Err(Refusal::Sync.at(at));
                }
                n = inside;
                at = end;
            }
        }
    }
    Ok(n)
}

// Where the items start after the Config at `at`. Mappings are made for a pack that has one alone.
fn after_config(s: &[u8], at: usize, value: Stretch) -> Result<usize, Refused>
    requires { (value.start + value.len ≤ length s.now) × (length s.now ≤ 32768) }
    ensures { result ≡ answered next_of (config_of s.now at value.start value.len) }
{
    let mut maps = Mappings::none();
    pack_config::config(s, at, value, &mut maps)?;
    Ok(value.start + value.len)
}

// Where the items of a pack's value at `at` start.
fn items_start(s: &[u8], at: usize) -> Result<usize, Refused>
    requires { length s.now ≤ 32768 }
    ensures { result ≡ answered next_of (opening_at s.now at) }
{
    match pack_config::first_at(s, at) {
        None => Ok(at),
        Some(value) => after_config(s, at, value),
    }
}

// The answer alone: how many items and inner payloads the pack has, or the refusal and its place. Nothing is stored of the items, so a check is
// faster than a reading.
pub fn check(pack: &[u8]) -> Result<usize, Refused>
    ensures { result ≡ checked pack.now }
{
    let at = pack::value_start(pack)?;
    let from = items_start(pack, at)?;
    count_items(pack, from)
}
