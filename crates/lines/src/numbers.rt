// Numbers of a command: a word read as one, exactly, whatever its length and its bytes; and a number written in decimal.
ghost use Rattle.std.specs.Prelude.{◌≡◌, ◌+◌, ◌≤◌, ◌<◌, true, false, length, drop, MatchOption};
ghost use Rattle.std.proofs.lemmas.List.Edits.{sets};
ghost use Rattle.lines.specs.Numbers.{is_negative, number_of, unsigned_of, magnitude_of, step_of};
ghost use Rattle.lines.specs.Digits.{digit_for, digits_of};

// The most digits of a number of 64 bits.
pub const DIGIT_LIMIT: usize = 20;

// What a number of 64 bits with a sign is worth at the most, above zero and below.
const MOST: u64 = i64::MAX as u64;

const MOST_BELOW_ZERO: u64 = MOST + 1;

// Digits worth `value`, and one digit more: nothing, if the byte is no digit or the worth would pass the limit.
// By hand, since `parse` takes a plus sign, and a u64's takes no -0: `number_of` and `unsigned_of` refuse the one and read the other.
// Compared before anything is summed up, and no checked sums: a loop over the digits works out the limit's tenth part once.
#[tactic(auto, using(crate::proofs::WordTests::word_tests), unfolding(crate::specs::Numbers::step_of, crate::specs::Numbers::is_digit))]
fn with_digit(value: u64, byte: u8, most: u64) -> Option<u64>
    ensures { result ≡ step_of most value byte }
{
    if byte < b'0' || b'9' < byte || most / 10 < value {
        None
    } else {
        let tens = value * 10;
        let digit = u64::from(byte - b'0');
        if digit <= most - tens {
            Some(tens + digit)
        } else {
            None
        }
    }
}

// Digits alone, worth the limit at the most.
fn magnitude(digits: &[u8], most: u64) -> Option<u64>
    ensures { result ≡ magnitude_of most digits.now }
{
    if digits.is_empty() {
        return None;
    }
    let mut value = 0;
    for digit in digits {
        value = with_digit(value, *digit, most)?;
    }
    Some(value)
}

// What follows the minus sign of a word that begins with one.
fn without_minus(word: &[u8]) -> Option<&[u8]>
    ensures { MatchOption result (is_negative word.now ≡ false) (λ digits. (is_negative word.now ≡ true) × (digits.now ≡ drop 1 word.now)) }
{
    word.strip_prefix(b"-")
}

// A number from 0 to `most`. -0 is one.
pub fn read_u64(word: &[u8], most: u64) -> Option<u64>
    ensures { result ≡ unsigned_of most word.now }
{
    match without_minus(word) {
        Some(digits) => magnitude(digits, 0),
        None => magnitude(word, most),
    }
}

// A number from -2^63 to 2^63 - 1.
pub fn read_i64(word: &[u8]) -> Option<i64>
    ensures { result ≡ number_of word.now }
{
    match without_minus(word) {
        Some(digits) => 0i64.checked_sub_unsigned(magnitude(digits, MOST_BELOW_ZERO)?),
        None => Some(magnitude(word, MOST)? as i64),
    }
}

// The digit for a number below ten.
fn digit(d: u64) -> u8
    requires { d < 10 }
    ensures { result ≡ digit_for d }
{
    b'0' + d as u8
}

// Writes the number in decimal from `at` on, and answers where it ends: the digits of its tenth part, and the last digit.
// By hand, since its clause asks for the digits at a place of a lent slice, and `to_string` has a heap.
pub fn write_u64(out: &mut [u8], at: usize, x: u64) -> usize
    requires { at + length (digits_of x) ≤ length out.old }
    ensures { (result ≡ at + length (digits_of x)) × (out.new ≡ sets out.old at (digits_of x)) }
{
    if x < 10 {
        out[at] = digit(x);
        return at + 1;
    }
    let last = write_u64(out, at, x / 10);
    out[last] = digit(x % 10);
    last + 1
}
