// How the tables write what a call answers.
ghost use Rattle.std.specs.Prelude.{◌≡◌, true, false, codes};

use evaluation::Truth;
use std::cmp::Ordering;

pub fn yes_or_no(answer: bool) -> &'static str
    ensures yes { answer ≡ true → result.now ≡ codes "yes" }
    ensures no { answer ≡ false → result.now ≡ codes "no" }
{
    if answer { "yes" } else { "no" }
}

pub fn sign(order: Ordering) -> char
    ensures less { order ≡ Ordering.Less → result ≡ 60 }
    ensures equal { order ≡ Ordering.Equal → result ≡ 61 }
    ensures greater { order ≡ Ordering.Greater → result ≡ 62 }
{
    match order {
        Ordering::Less => '<',
        Ordering::Equal => '=',
        Ordering::Greater => '>',
    }
}

pub fn letter(truth: Truth) -> char
    ensures fails { truth ≡ Truth.False → result ≡ 70 }
    ensures undefined { truth ≡ Truth.Undefined → result ≡ 85 }
    ensures holds { truth ≡ Truth.True → result ≡ 84 }
{
    match truth {
        Truth::False => 'F',
        Truth::Undefined => 'U',
        Truth::True => 'T',
    }
}
