#![tactic(auto)]
// The keep sheet: judged once, then asked for each name. Its entries are read where they stand.
ghost use Rattle.std.specs.Prelude.{◌≡◌, false, ℕ, ◌+◌, ◌*◌, ◌<◌, ◌≤◌, length, take, drop, get_or};
ghost use Rattle.runs.specs.Same.{among, listed};
ghost use Rattle.pack.specs.Said.{label, number};
ghost use Rattle.pack.specs.Slots.{padded};
ghost use Rattle.scrub_kept.specs.Sheet.{sheet_cap, labels_at, numbers_at, labels_good, numbers_good, header_good, keeps_all, sheet_checked, sheet_of};
ghost use Rattle.scrub_kept.specs.Kept.{keeps};
ghost use Rattle.scrub_sheet.specs.Asked.{these_asked, sheet_asked, asks, EntriesThere, Short};
ghost use Rattle.scrub_sheet.specs.Marked.{Marked};
ghost use Rattle.refusals.specs.Outcomes.{answered};

use refusals::{Refusal, Refused};
use std::marker::Model;

// What a sheet asks for: all, nothing, or its labels and numbers by their counts.
#[derive(Clone, Copy)]
pub enum Asked {
    All,
    Nothing,
    These { labels: usize, numbers: usize },
}

// A sheet with what it asks for. Its bytes stay where they are. Most tags have one byte, so the numbers below 128 are sought once, and not for each
// payload: `short` says of each whether it is kept.
#[derive(Clone, Drop)]
pub struct Sheet<'a> {
    bytes: &'a [u8],
    asked: Asked,
    short: [bool; 128],
}

// What a sheet keeps is what its bytes come to.
impl<'a> Model for Sheet<'a> {
    ghost use Rattle.scrub_kept.specs.Sheet.{Sheet as KeepSheet};

    ghost Value = { KeepSheet };

    ghost use Rattle.scrub_sheet.specs.Asked.{asks, EntriesThere, Short};

    ghost view = { λ s. asks s.bytes.now s.asked };

    ghost invariant = { λ s. EntriesThere s.bytes.now s.asked × Short (asks s.bytes.now s.asked) s.short };
}

// The most labels, and the most numbers, on a sheet.
const CAP: usize = 32;

// Both counts of the sheet that keeps all: no sheet has so many entries.
const ALL: u16 = 65535;

// Whether the label at `i` of `p` is one of the `count` labels of `s` from `at` on.
fn has_label(s: &[u8], at: usize, count: usize, p: &[u8], i: usize) -> bool
    requires { (i + 16 ≤ length p.now) × (at + 16 * count ≤ length s.now) }
    ensures { result ≡ listed (take 16 (drop i p.now)) (labels_at s.now at count) }
{
    for k in 0..count {
        if labels::same_label(s, at + 16 * k, p, i) {
            return true;
        }
    }
    false
}

// Whether the number is one of the `count` numbers of `s` from `at` on.
fn has_number(s: &[u8], at: usize, count: usize, n: u32) -> bool
    requires { at + 4 * count ≤ length s.now }
    ensures { result ≡ among n (numbers_at s.now at count) }
{
    for k in 0..count {
        if numbers::be32(s, at + 4 * k) == n {
            return true;
        }
    }
    false
}

// For each number below 128 whether it is one of the `count` numbers of `s` from `at` on.
fn short_among(s: &[u8], at: usize, count: usize) -> [bool; 128]
    requires { at + 4 * count ≤ length s.now }
    ensures { (n : ℕ) → n < 128 → get_or result n false ≡ among n (numbers_at s.now at count) }
{
    let mut found = [false; 128];
    for k in 0..count {
        let n = numbers::be32(s, at + 4 * k);
        if n < 128 {
            found[n as usize] = true;
        }
    }
    found
}

// No label from `at` on is one of the three utility labels, and none repeats.
fn labels_good(s: &[u8], at: usize, count: usize) -> bool
    requires { at + 16 * count ≤ length s.now }
    ensures { result ≡ labels_good (labels_at s.now at count) }
{
    for k in 0..count {
        let here = at + 16 * k;
        if pack::is_utility(s, here) {
            return false;
        }
        if has_label(s, here + 16, count - k - 1, s, here) {
            return false;
        }
    }
    true
}

// The `count` numbers of `s` from `at` on, read once: each is held against all that come after it.
fn numbers_from(s: &[u8], at: usize, count: usize) -> [u32; 32]
    requires { (at + 4 * count ≤ length s.now) × (count ≤ sheet_cap) }
    ensures { result ≡ padded sheet_cap 0 (numbers_at s.now at count) }
{
    let mut found = [0; 32];
    for k in 0..count {
        found[k] = numbers::be32(s, at + 4 * k);
    }
    found
}

// Whether the number is one of these.
fn is_among(n: u32, others: &[u32]) -> bool
    ensures { result ≡ among n others.now }
{
    for other in others {
        if *other == n {
            return true;
        }
    }
    false
}

// Whether the number is one of these. `seen` has a mark for the remainder by 64 of each of them, so that most need not be looked through.
fn repeats(n: u32, others: &[u32], seen: u64) -> bool
    requires { Marked others.now seen }
    ensures { result ≡ among n others.now }
{
    seen & (1 << (n % 64)) != 0 && is_among(n, others)
}

// Each of these numbers is from 4 to 268,435,455, and none repeats. The last comes first.
fn all_good(them: &[u32]) -> bool
    ensures { result ≡ numbers_good them.now }
{
    let mut seen: u64 = 0;
    for k in (0..them.len()).rev() {
        let n = them[k];
        if n < 4 {
            return false;
        }
        if n > 268435455 {
            return false;
        }
        if repeats(n, &them[k + 1..], seen) {
            return false;
        }
        seen |= 1 << (n % 64);
    }
    true
}

// Each number from `at` on is from 4 to 268,435,455, and none repeats.
fn numbers_good(s: &[u8], at: usize, count: usize) -> bool
    requires { (at + 4 * count ≤ length s.now) × (count ≤ sheet_cap) }
    ensures { result ≡ numbers_good (numbers_at s.now at count) }
{
    let them = numbers_from(s, at, count);
    all_good(&them[..count])
}

// The four header fields, and a length that is what they make.
#[tactic(auto, unfolding(scrub_kept::specs::Sheet::header_good))]
fn header_good(s: &[u8]) -> bool
    ensures { result ≡ header_good s.now }
{
    if s.len() < 8 {
        return false;
    }
    let labels = numbers::be16(s, 0) as usize;
    if labels > CAP {
        return false;
    }
    let count = numbers::be16(s, 4) as usize;
    if count > CAP {
        return false;
    }
    if numbers::be16(s, 2) != 8 {
        return false;
    }
    if numbers::be16(s, 6) as usize != 8 + 16 * labels {
        return false;
    }
    s.len() == 8 + 16 * labels + 4 * count
}

// Keep all: exactly a header, with that number in both counts and 8 in both offsets.
#[tactic(auto, unfolding(scrub_kept::specs::Sheet::keeps_all))]
fn keeps_all(s: &[u8]) -> bool
    ensures { result ≡ keeps_all s.now }
{
    if s.len() != 8 {
        return false;
    }
    if numbers::be16(s, 0) != ALL {
        return false;
    }
    if numbers::be16(s, 4) != ALL {
        return false;
    }
    if numbers::be16(s, 2) != 8 {
        return false;
    }
    numbers::be16(s, 6) == 8
}

// The entries of a sheet with a header of its own, if header and entries are good.
#[tactic(auto, using(crate::proofs::Header::header_counts), unfolding(crate::specs::Asked::these_asked))]
fn these(s: &[u8]) -> Option<Asked>
    ensures { result ≡ these_asked s.now }
{
    if !header_good(s) {
        return None;
    }
    let labels = numbers::be16(s, 0) as usize;
    let count = numbers::be16(s, 4) as usize;
    if labels_good(s, 8, labels) && numbers_good(s, 8 + 16 * labels, count) {
        Some(Asked::These {
            labels,
            numbers: count,
        })
    } else {
        None
    }
}

// What the bytes of a sheet ask for, or SHEET.
#[tactic(auto, unfolding(crate::specs::Asked::sheet_asked))]
pub fn asked_by(s: &[u8]) -> Result<Asked, Refused>
    ensures { result ≡ sheet_asked s.now }
{
    if s.is_empty() {
        return Ok(Asked::Nothing);
    }
    if keeps_all(s) {
        return Ok(Asked::All);
    }
    these(s).ok_or(Refusal::Sheet.at(0))
}

// For each number below 128 whether a sheet keeps its payloads.
pub fn short_numbers(s: &[u8], asked: Asked) -> [bool; 128]
    requires { EntriesThere s.now asked }
    ensures { Short (asks s.now asked) result }
{
    match asked {
        Asked::All => [true; 128],
        Asked::Nothing => [false; 128],
        Asked::These { labels, numbers } => short_among(s, 8 + 16 * labels, numbers),
    }
}

// Judges the bytes of a sheet: what it keeps, or SHEET.
pub fn judge(s: &[u8]) -> Result<Sheet<'_>, Refused>
    ensures { result ≡ answered (λ x. x) (sheet_of s.now) }
{
    let asked = asked_by(s)?;
    Ok(Sheet::new(s, asked))
}

// Judges a sheet alone: how many labels and numbers stand on it, or SHEET. The counts of the sheet that keeps all count no entries.
pub fn check(s: &[u8]) -> Result<usize, Refused>
    ensures { result ≡ sheet_checked s.now }
{
    match asked_by(s)? {
        Asked::All => Ok(0),
        Asked::Nothing => Ok(0),
        Asked::These { labels, numbers } => Ok(labels + numbers),
    }
}

impl<'a> Sheet<'a> {
    // The sheet that keeps what is asked for of these bytes. They need not be judged: the entries that are counted are there, and whatever they are, they
    // are asked.
    pub fn new(s: &'a [u8], asked: Asked) -> Self
        requires { EntriesThere s.now asked }
        ensures { result ≡ asks s.now asked }
    {
        let short = short_numbers(s, asked);
        Sheet {
            bytes: s,
            asked,
            short,
        }
    }

    // Whether the sheet keeps the payloads of the label at `at` of the pack.
    #[tactic(auto, unfolding(runs::specs::Same::listed))]
    pub fn keeps_label(&self, p: &[u8], at: usize) -> bool
        requires { at + 16 ≤ length p.now }
        ensures { result ≡ keeps self.now (label (take 16 (drop at p.now))) }
    {
        match self.asked {
            Asked::All => true,
            Asked::Nothing => false,
            Asked::These { labels, numbers: _ } => has_label(self.bytes, 8, labels, p, at),
        }
    }

    // Whether the sheet keeps the payloads of a tag number that the pack does not map.
    #[tactic(auto, unfolding(runs::specs::Same::among))]
    pub fn keeps_number(&self, n: u32) -> bool
        ensures { result ≡ keeps self.now (number n) }
    {
        if n < 128 {
            return self.short[n as usize];
        }
        match self.asked {
            Asked::All => true,
            Asked::Nothing => false,
            Asked::These { labels, numbers } => has_number(self.bytes, 8 + 16 * labels, numbers, n),
        }
    }
}
