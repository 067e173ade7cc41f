#![tactic(auto)]
// What C calls, through crates/ballastwren_c: include/ballastwren.h says it for the C programmer. Answers are structs of numbers.
// No function here asks anything of its caller, keeps a state or takes memory.
ghost use Rattle.std.specs.Prelude.{◌≡◌};
ghost use Rattle.pack.specs.Reading.{checked};
ghost use Rattle.scrub_kept.specs.Sheet.{sheet_checked};
ghost use Rattle.lookup.specs.Lookup.{looked_up};
ghost use Rattle.pmd.specs.Gain.{level_of};
ghost use Rattle.ballastwren.specs.Told.{told_of, mark_number, told_unfound, told_found_of, told_gain_of, BwRead, BwScrub, BwPmdRead, BwPmdWrite};
ghost use Rattle.ballastwren.specs.Objects.{BwApply, BwClear};
ghost use Rattle.ballastwren.specs.Version.{version};

use lookup::{Found, Mark, Unfound};
use objects::Object;
use pmd::Level;
use refusals::{Refusal, Refused};

// An answer for C: number 0 and a count, or a refusal's number and its place.
#[repr(C)]
#[derive(Clone, Copy, Debug, PartialEq, Eq)]
pub struct Told {
    pub number: u64,
    pub value: u64,
}

// What was looked up, for C: number 0 and `value` bytes from `start` on of main, `from` 1, or of backup, `from` 2, and the payload's total offset; or a
// refusal's number, its place in `value`, the pack at fault in `from`, 0 for neither, and 0 in `start` and `total`.
#[repr(C)]
#[derive(Clone, Copy, Debug, PartialEq, Eq)]
pub struct ToldFound {
    pub number: u64,
    pub value: u64,
    pub from: u64,
    pub start: u64,
    pub total: i64,
}

// A gain for C: number 0 and either muted 1 or so many half decibels, or a refusal's number and two zeros.
#[repr(C)]
#[derive(Clone, Copy, Debug, PartialEq, Eq)]
pub struct ToldGain {
    pub number: u32,
    pub muted: u32,
    pub half_db: i32,
}

// The version, as include/ballastwren.h has it.
const MAJOR: u32 = 0;

const MINOR: u32 = 7;

const PATCH: u32 = 0;

impl From<Result<usize, Refused>> for Told {
    ghost use Rattle.std.specs.Prelude.{◌≡◌};
    ghost use Rattle.ballastwren.specs.Told.{told_of};

    ghost from_gives = { λ answer told. told ≡ told_of answer };

    fn from(answer: Result<usize, Refused>) -> Told {
        match answer {
            Ok(n) => Told {
                number: 0,
                value: n as u64,
            },
            Err(refused) => {
                let number = refused.why.number();
                Told {
                    number: number as u64,
                    value: refused.place as u64,
                }
            }
        }
    }
}

// The number of a pack as C is told it.
fn mark_number(mark: Mark) -> u64
    ensures { result ≡ mark_number mark }
{
    match mark {
        Mark::Main => 1,
        Mark::Backup => 2,
        Mark::Neither => 0,
    }
}

// A refusal of a look-up, with the number of the pack at fault, 0 for neither.
fn unfound(refused: Refused, from: u64) -> ToldFound
    ensures { result ≡ told_unfound refused from }
{
    let number = refused.why.number();
    ToldFound {
        number: number as u64,
        value: refused.place as u64,
        from,
        start: 0,
        total: 0,
    }
}

impl From<Result<Found, Unfound>> for ToldFound {
    ghost use Rattle.std.specs.Prelude.{◌≡◌};
    ghost use Rattle.ballastwren.specs.Told.{told_found_of};

    ghost from_gives = { λ looked told. told ≡ told_found_of looked };

    fn from(looked: Result<Found, Unfound>) -> ToldFound {
        match looked {
            Ok(found) => ToldFound {
                number: 0,
                value: found.value.len as u64,
                from: mark_number(found.from),
                start: found.value.start as u64,
                total: found.total,
            },
            Err(Unfound::Main(refused)) => unfound(refused, 1),
            Err(Unfound::Backup(refused)) => unfound(refused, 2),
            Err(Unfound::Absent) => unfound(Refusal::Absent.at(0), 0),
        }
    }
}

impl From<Result<Level, Refused>> for ToldGain {
    ghost use Rattle.std.specs.Prelude.{◌≡◌};
    ghost use Rattle.ballastwren.specs.Told.{told_gain_of};

    ghost from_gives = { λ level told. told ≡ told_gain_of level };

    fn from(level: Result<Level, Refused>) -> ToldGain {
        match level {
            Ok(Level::Muted) => ToldGain {
                number: 0,
                muted: 1,
                half_db: 0,
            },
            Ok(Level::HalfDecibels(n)) => ToldGain {
                number: 0,
                muted: 0,
                half_db: n,
            },
            Err(refused) => ToldGain {
                number: refused.why.number(),
                muted: 0,
                half_db: 0,
            },
        }
    }
}

// Checks a pack. Answers how many items and inner payloads it has, or the refusal and its place.
pub fn bw_check(pack: &[u8]) -> Told
    ensures { result ≡ told_of (checked pack.now) }
{
    Told::from(pack_check::check(pack))
}

// Reads a pack into `rows`, eight numbers a row: the pack's row, then one for each item and inner payload in order. Answers how many numbers were
// written, or the refusal: those of bw_check, then NOROOM. Numbers after those written do not change; a refusal changes none.
pub fn bw_read(pack: &[u8], rows: &mut [u32]) -> Told
    ensures { BwRead pack.now rows.old result rows.new }
{
    Told::from(pack_rows::rows(pack, &mut *rows))
}

// Scrubs a pack by the bytes of a keep sheet into `out`. Answers the length of the new pack, or the refusal: SHEET, those of bw_check, then NOROOM.
// What follows the new pack in `out` becomes 0; a refusal changes nothing.
pub fn bw_scrub(sheet: &[u8], pack: &[u8], out: &mut [u8]) -> Told
    ensures { BwScrub sheet.now pack.now out.old result out.new }
{
    Told::from(scrub::scrub(sheet, pack, &mut *out))
}

// Judges a keep sheet alone. Answers how many labels and tag numbers stand on it, none on the one that keeps all, or SHEET as bw_scrub would.
pub fn bw_sheet_check(sheet: &[u8]) -> Told
    ensures { result ≡ told_of (sheet_checked sheet.now) }
{
    Told::from(scrub_sheet::check(sheet))
}

// Looks a label up in two packs. Answers where the value of its first payload stands, in main or, if main has none, in backup, and its total offset; or the
// refusal: those of bw_check for main, those for backup, then ABSENT, also for a label that is not of 16 bytes.
pub fn bw_lookup(main: &[u8], backup: &[u8], label: &[u8]) -> ToldFound
    ensures { result ≡ told_found_of (looked_up main.now backup.now label.now) }
{
    ToldFound::from(lookup::lookup(main, backup, label))
}

// Reads a PMD value of this kind into `numbers`, all its fields in order. Answers how many numbers were written, or the refusal: KIND, BIG, those of
// the fields with their bit as place, PAD, then NOROOM. Numbers after those written do not change; a refusal changes none.
pub fn bw_pmd_read(kind: u32, value: &[u8], numbers: &mut [u32]) -> Told
    ensures { BwPmdRead kind value.now numbers.old result numbers.new }
{
    Told::from(pmd_read::pmd_read(kind, value, &mut *numbers))
}

// Writes `numbers` as a PMD value of this kind into `out`. Answers how many bytes were written, or the refusal: KIND, those of the list with the
// number's index as place, then NOROOM. Bytes after those written do not change; a refusal changes none.
pub fn bw_pmd_write(kind: u32, numbers: &[u32], out: &mut [u8]) -> Told
    ensures { BwPmdWrite kind numbers.now out.old result out.new }
{
    Told::from(pmd_write::pmd_write(kind, numbers, &mut *out))
}

// What an object's gain means: muted at 0, else half decibels from -50 to 12. A gain above 63 is FIELD.
pub fn bw_gain(gain: u32) -> ToldGain
    ensures { result ≡ told_gain_of (level_of gain) }
{
    ToldGain::from(pmd::gain(gain))
}

// Applies an AOD or XYZ value to a lent table of objects: an AOD sets entries whole, an XYZ moves those that are there. Answers how many records were
// applied, or the refusal: TABLE, KIND for any other kind, those of bw_pmd_read but NOROOM, then UNKNOWN and STATIC by record, or FULL. A refusal changes no
// entry.
pub fn bw_objects_apply(kind: u32, value: &[u8], table: &mut [Object]) -> Told
    ensures { BwApply kind value.now table.old result table.new }
{
    Told::from(objects_apply::apply(kind, value, &mut *table))
}

// Clears the entry of an element in a lent table of objects: all its fields become 0. Answers 1, or the refusal: TABLE, then UNKNOWN. A refusal changes no
// entry.
pub fn bw_objects_clear(element: u32, table: &mut [Object]) -> Told
    ensures { BwClear element table.old result table.new }
{
    Told::from(objects_apply::clear(element, &mut *table))
}

// The version of the library as one number.
pub fn bw_version() -> u32
    ensures { result ≡ version }
{
    MAJOR * 10000 + MINOR * 100 + PATCH
}
