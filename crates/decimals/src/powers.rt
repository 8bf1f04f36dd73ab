// The powers of ten that an i64 holds. The table is named here and nowhere else: the rest of the crate asks `ten_to`.
ghost use Rattle.std.specs.Prelude.{◌≡◌, ◌^◌, ◌≤◌};

// The greatest k for which 10 to the k is an i64.
pub(crate) const GREATEST_POWER: u8 = 18;

// Entry k is 10 to the k. A table and not `pow`, since a power is one load so, however often a search compares.
const TENS: [u64; 19] = [
    1,
    10,
    100,
    1000,
    10000,
    100000,
    1000000,
    10000000,
    100000000,
    1000000000,
    10000000000,
    100000000000,
    1000000000000,
    10000000000000,
    100000000000000,
    1000000000000000,
    10000000000000000,
    100000000000000000,
    1000000000000000000,
];

pub(crate) fn ten_to(k: u8) -> u64
    requires { k ≤ 18 }
    ensures { result ≡ 10 ^ k }
{
    TENS[usize::from(k)]
}
