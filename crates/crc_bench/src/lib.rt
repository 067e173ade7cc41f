#![tactic(auto)]
// The CRC as a C function, for the benchmark alone.
ghost use Rattle.std.specs.Prelude.{◌≡◌};
ghost use Rattle.crc.specs.Crc.{crc_of};

#[unsafe(no_mangle)]
pub extern "C" fn bw_bench_crc(s: &[u8]) -> u32
    ensures { result ≡ crc_of s.now }
{
    crc::crc(s)
}
