#![tactic(auto)]
// The demands of document 01 and the requests of document 02 as functions over what C calls: each calls exports, and its contract says which, of what, and
// the demands that they meet. An export that promised less would leave its function here without a proof.
ghost use Rattle.demands.specs.Demands.{ScrubTwo, ScrubAndRead, ReadAndWrite, WriteAndRead, CheckAndRead, CheckSheetAndScrub, CheckAndLookUp, TellGain};

use ballastwren::{Told, ToldFound, ToldGain};

// What two calls tell, one after the other.
#[derive(Clone, Copy)]
pub struct Two {
    pub first: Told,
    pub second: Told,
}

// What two checks and a look-up tell.
#[derive(Clone, Copy)]
pub struct Looked {
    pub main: Told,
    pub backup: Told,
    pub found: ToldFound,
}

// Scrubs two packs by one sheet, each into a buffer of its own.
pub fn scrub_two(sheet: &[u8], pack: &[u8], other: &[u8], out: &mut [u8], again: &mut [u8]) -> Two
    ensures { ScrubTwo sheet.now pack.now other.now out.old again.old result.first out.new result.second again.new }
{
    let first = ballastwren::bw_scrub(sheet, pack, &mut *out);
    let second = ballastwren::bw_scrub(sheet, other, &mut *again);
    Two { first, second }
}

// Scrubs a pack and reads what was written. Where nothing was, the second answer is the first.
pub fn scrub_and_read(sheet: &[u8], pack: &[u8], out: &mut [u8], rows: &mut [u32]) -> Two
    ensures { ScrubAndRead sheet.now pack.now out.old rows.old result.first out.new result.second rows.new }
{
    let first = ballastwren::bw_scrub(sheet, pack, &mut *out);
    if first.number != 0 {
        return Two {
            first,
            second: first,
        };
    }
    let n = first.value as usize;
    let second = ballastwren::bw_read(&out[0..n], &mut *rows);
    Two { first, second }
}

// Reads the fields of a value and writes them again. Where they were not read, the second answer is the first.
pub fn read_and_write(kind: u32, value: &[u8], numbers: &mut [u32], out: &mut [u8]) -> Two
    ensures { ReadAndWrite kind value.now numbers.old out.old result.first numbers.new result.second out.new }
{
    let first = ballastwren::bw_pmd_read(kind, value, &mut *numbers);
    if first.number != 0 {
        return Two {
            first,
            second: first,
        };
    }
    let n = first.value as usize;
    let second = ballastwren::bw_pmd_write(kind, &numbers[0..n], &mut *out);
    Two { first, second }
}

// Writes a list of numbers as a value and reads that. Where it was not written, the second answer is the first.
pub fn write_and_read(kind: u32, numbers: &[u32], out: &mut [u8], run: &mut [u32]) -> Two
    ensures { WriteAndRead kind numbers.now out.old run.old result.first out.new result.second run.new }
{
    let first = ballastwren::bw_pmd_write(kind, numbers, &mut *out);
    if first.number != 0 {
        return Two {
            first,
            second: first,
        };
    }
    let n = first.value as usize;
    let second = ballastwren::bw_pmd_read(kind, &out[0..n], &mut *run);
    Two { first, second }
}

// Checks a pack, and reads it.
pub fn check_and_read(pack: &[u8], rows: &mut [u32]) -> Two
    ensures { CheckAndRead pack.now rows.old result.first result.second rows.new }
{
    let first = ballastwren::bw_check(pack);
    let second = ballastwren::bw_read(pack, &mut *rows);
    Two { first, second }
}

// Checks a sheet, and scrubs a pack by it.
pub fn check_sheet_and_scrub(sheet: &[u8], pack: &[u8], out: &mut [u8]) -> Two
    ensures { CheckSheetAndScrub sheet.now pack.now out.old result.first result.second out.new }
{
    let first = ballastwren::bw_sheet_check(sheet);
    let second = ballastwren::bw_scrub(sheet, pack, &mut *out);
    Two { first, second }
}

// Checks two packs, and looks a label up in them.
pub fn check_and_look_up(main: &[u8], backup: &[u8], label: &[u8]) -> Looked
    ensures { CheckAndLookUp main.now backup.now label.now result.main result.backup result.found }
{
    let first = ballastwren::bw_check(main);
    let second = ballastwren::bw_check(backup);
    let found = ballastwren::bw_lookup(main, backup, label);
    Looked {
        main: first,
        backup: second,
        found,
    }
}

// Tells what a gain means.
pub fn tell_gain(gain: u32) -> ToldGain
    ensures { TellGain gain result }
{
    ballastwren::bw_gain(gain)
}
