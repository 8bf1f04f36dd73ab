// The reader of command lines, over bytes that the caller lends: the words of a line, and the lines of a run of bytes. It reads no file.
// A line is walked by a place that is passed from call to call: from `at`, while `at` is at most the line's length, the next word is
// `&line[at..end]` with `end` from `word_end`, and the word after it begins at `end + 1`.
#![tactic(auto)]

pub mod keywords;
pub mod numbers;
pub mod rows;

ghost use Rattle.std.specs.Prelude.{◌≡◌, ◌≤◌, length};
ghost use Rattle.lines.specs.Parts.{place_of};
ghost use Rattle.lines.specs.Words.{WordEnds, is_word, is_line, is_silent, LineEnds};
ghost use Rattle.lines.specs.Colon.{last_colon};

// The most bytes of a word.
pub const WORD_LIMIT: usize = 64;

// The most bytes of a line, its newline not counted.
pub const LINE_LIMIT: usize = 65536;

// The place of the first such byte, or the length where there is none: no Option, as the definition `place_of` is a number.
fn place_of(bytes: &[u8], byte: u8) -> usize
    ensures { result ≡ place_of byte bytes.now }
{
    bytes
        .iter()
        .position(|other| *other == byte)
        .unwrap_or(bytes.len())
}

// Where the word that begins at `at` ends: at the next space, or with the line.
#[tactic(auto, using(crate::specs::WordsLaws::word_ends, crate::proofs::PartLaws::part_rest), unfolding(crate::specs::Words::word_end))]
pub fn word_end(line: &[u8], at: usize) -> usize
    requires { at ≤ length line.now }
    ensures { WordEnds line.now at result }
{
    at + place_of(&line[at..], b' ')
}

// The first newline from one place up to another, or the second place: no Option, as `LineEnds` is one number's (`WordEnds` too).
#[tactic(auto, using(crate::specs::WordsLaws::line_ends), unfolding(crate::specs::Words::line_end))]
pub fn line_end(buffer: &[u8], from: usize, to: usize) -> usize
    requires { (from ≤ to) × (to ≤ length buffer.now) }
    ensures { LineEnds buffer.now from to result }
{
    from + place_of(&buffer[from..to], b'\n')
}

// Whether it is a word: not empty, and no longer than the limit.
#[tactic(auto, using(crate::proofs::WordTests::word_tests), unfolding(crate::specs::Words::is_word))]
fn is_word(word: &[u8]) -> bool
    ensures { result ≡ is_word word.now }
{
    (1..=WORD_LIMIT).contains(&word.len())
}

// Whether it is a line: words between single spaces, within the limits.
// By hand, since `split` keeps beside the rest whether it has yielded the last part, and tests that again at each word.
pub fn is_line(line: &[u8]) -> bool
    ensures { result ≡ is_line line.now }
{
    if LINE_LIMIT < line.len() {
        return false;
    }
    let mut at = 0;
    while at <= line.len() {
        let end = word_end(line, at);
        if !is_word(&line[at..end]) {
            return false;
        }
        at = end + 1;
    }
    true
}

// Whether the line asks for nothing: it is empty, or begins with #.
pub fn is_silent(line: &[u8]) -> bool
    ensures { result ≡ is_silent line.now }
{
    line.first().is_none_or(|first| *first == b'#')
}

// The place of the last colon of a word.
pub fn last_colon(word: &[u8]) -> Option<usize>
    ensures { result ≡ last_colon word.now }
{
    word.iter().rposition(|byte| *byte == b':')
}
