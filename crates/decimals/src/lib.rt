// Decimals: a number x and a scale y stand for x over 10 to the y. They are compared exactly, in 64 bits, and have a normal form.
#![tactic(auto)]

ghost use Rattle.std.specs.Prelude.{◌≡◌, ◌^◌, ◌≤◌, pos, ◌*ℤ◌};
ghost use Rattle.std.specs.Ordering.{int_cmp};
ghost use Rattle.decimals.specs.Decimals.{scale_limit, compare_of};
ghost use Rattle.decimals.specs.Normal.{normal_of, is_normal};

use std::cmp::Ordering;

mod powers;

// The greatest scale that a decimal has in a rule or an event.
pub const SCALE_LIMIT: u8 = 28;

// No `==`: it would be that of the two numbers, under which 85/0 and 8500/2 differ, where `compare` says that they are equal.
// The scale's limit stays a clause of `compare`: an event may hold any scale, and `events::suits` judges it.
#[derive(Clone, Copy, Debug)]
pub struct Decimal {
    pub number: i64,
    pub scale: u8,
}

// The order of a times 10 to the k and b. Since the product may pass 64 bits, b is divided: first its quotient decides, then its remainder.
fn raised(a: i64, k: u8, b: i64) -> Ordering
    ensures { result ≡ int_cmp (a *ℤ pos (10 ^ k)) b }
{
    if powers::GREATEST_POWER < k {
        return a.cmp(&0).then(0.cmp(&b));
    }
    let power = powers::ten_to(k) as i64;
    a.cmp(&(b / power)).then(0.cmp(&(b % power)))
}

// The order of two decimals by value. Equal scales take no division.
pub fn compare(left: Decimal, right: Decimal) -> Ordering
    requires { (left.scale ≤ scale_limit) × (right.scale ≤ scale_limit) }
    ensures { result ≡ compare_of left right }
{
    if left.scale == right.scale {
        return left.number.cmp(&right.number);
    }
    if left.scale < right.scale {
        return raised(left.number, right.scale - left.scale, right.number);
    }
    raised(right.number, left.scale - right.scale, left.number).reverse()
}

// Whether a decimal is its own normal form.
pub fn is_normal(decimal: Decimal) -> bool
    ensures { result ≡ is_normal decimal }
{
    decimal.scale == 0 || decimal.number % 10 != 0
}

// The normal form: two decimals have the same one exactly when their values are equal.
pub fn normal(decimal: Decimal) -> Decimal
    ensures { result ≡ normal_of decimal }
{
    let mut rest = decimal;
    while !is_normal(rest) {
        let number = rest.number / 10;
        let scale = rest.scale - 1;
        rest = Decimal { number, scale };
    }
    rest
}
