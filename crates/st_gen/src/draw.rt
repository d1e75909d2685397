ghost use Rattle.std.specs.Prelude.{◌≡◌};
ghost use Rattle.st_gen.specs.Script.{drawn, sector_of, sectors_of, byte_of, kind_of};

/// The number that follows: a linear congruence modulo 2^64.
pub(crate) fn drawn(x: u64) -> u64
    ensures { result ≡ drawn x }
{
    let product = u128::from(x) * 6_364_136_223_846_793_005 + 1_442_695_040_888_963_407;
    (product % 18_446_744_073_709_551_616) as u64
}

pub(crate) fn sector_of(x: u64) -> u64
    ensures { result ≡ sector_of x }
{
    x / 65_536 % 25_000
}

pub(crate) fn sectors_of(x: u64) -> u64
    ensures { result ≡ sectors_of x }
{
    1 + x / 256 % 8
}

pub(crate) fn byte_of(x: u64) -> u64
    ensures { result ≡ byte_of x }
{
    x / 1_099_511_627_776 % 256
}

/// The upper four bits.
pub(crate) fn kind_of(x: u64) -> u64
    ensures { result ≡ kind_of x }
{
    x / 1_152_921_504_606_846_976
}
