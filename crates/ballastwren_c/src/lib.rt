// The functions of crates/ballastwren as exports for C, each under its own name and with its own clauses: include/ballastwren.h says them for the C
// programmer. Slices pass as a pointer and a length, answers as a struct of numbers.
#![tactic(auto)]

ghost use Rattle.std.specs.Prelude.{◌≡◌};
ghost use Rattle.pack.specs.Reading.{checked};
ghost use Rattle.scrub_kept.specs.Sheet.{sheet_checked};
ghost use Rattle.lookup.specs.Lookup.{looked_up};
ghost use Rattle.pmd.specs.Gain.{level_of};
ghost use Rattle.ballastwren.specs.Told.{told_of, told_found_of, told_gain_of, BwRead, BwScrub, BwPmdRead, BwPmdWrite};
ghost use Rattle.ballastwren.specs.Objects.{BwApply, BwClear};
ghost use Rattle.ballastwren.specs.Version.{version};

use ballastwren::{Told, ToldFound, ToldGain};
use objects::Object;

#[unsafe(no_mangle)]
pub extern "C" fn bw_check(pack: &[u8]) -> Told
    ensures { result ≡ told_of (checked pack.now) }
{
    ballastwren::bw_check(pack)
}

#[unsafe(no_mangle)]
pub extern "C" fn bw_read(pack: &[u8], rows: &mut [u32]) -> Told
    ensures { BwRead pack.now rows.old result rows.new }
{
    ballastwren::bw_read(pack, &mut *rows)
}

#[unsafe(no_mangle)]
pub extern "C" fn bw_scrub(sheet: &[u8], pack: &[u8], out: &mut [u8]) -> Told
    ensures { BwScrub sheet.now pack.now out.old result out.new }
{
    ballastwren::bw_scrub(sheet, pack, &mut *out)
}

#[unsafe(no_mangle)]
pub extern "C" fn bw_sheet_check(sheet: &[u8]) -> Told
    ensures { result ≡ told_of (sheet_checked sheet.now) }
{
    ballastwren::bw_sheet_check(sheet)
}

#[unsafe(no_mangle)]
pub extern "C" fn bw_lookup(main: &[u8], backup: &[u8], label: &[u8]) -> ToldFound
    ensures { result ≡ told_found_of (looked_up main.now backup.now label.now) }
{
    ballastwren::bw_lookup(main, backup, label)
}

#[unsafe(no_mangle)]
pub extern "C" fn bw_pmd_read(kind: u32, value: &[u8], numbers: &mut [u32]) -> Told
    ensures { BwPmdRead kind value.now numbers.old result numbers.new }
{
    ballastwren::bw_pmd_read(kind, value, &mut *numbers)
}

#[unsafe(no_mangle)]
pub extern "C" fn bw_pmd_write(kind: u32, numbers: &[u32], out: &mut [u8]) -> Told
    ensures { BwPmdWrite kind numbers.now out.old result out.new }
{
    ballastwren::bw_pmd_write(kind, numbers, &mut *out)
}

#[unsafe(no_mangle)]
pub extern "C" fn bw_gain(gain: u32) -> ToldGain
    ensures { result ≡ told_gain_of (level_of gain) }
{
    ballastwren::bw_gain(gain)
}

#[unsafe(no_mangle)]
pub extern "C" fn bw_objects_apply(kind: u32, value: &[u8], table: &mut [Object]) -> Told
    ensures { BwApply kind value.now table.old result table.new }
{
    ballastwren::bw_objects_apply(kind, value, &mut *table)
}

#[unsafe(no_mangle)]
pub extern "C" fn bw_objects_clear(element: u32, table: &mut [Object]) -> Told
    ensures { BwClear element table.old result table.new }
{
    ballastwren::bw_objects_clear(element, &mut *table)
}

#[unsafe(no_mangle)]
pub extern "C" fn bw_version() -> u32
    ensures { result ≡ version }
{
    ballastwren::bw_version()
}
