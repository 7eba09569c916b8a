// Counts that stop at 2^64 - 1 (01, "The keeper": "Each stops at 2^64 - 1").
ghost use Rattle.std.specs.Prelude.{◌≡◌};
ghost use Rattle.depacketizer_spec.specs.Step.{◌⊞◌};

pub(crate) fn increased(count: u64, by: u64) -> u64
    ensures { result ≡ count ⊞ by }
{
    if by > 0xffff_ffff_ffff_ffff - count {
        0xffff_ffff_ffff_ffff
    } else {
        count + by
    }
}
