// What an entry may be by itself: the table of kinds and tags, and what x and y may be under each tag. Kinds and tags are numbers here,
// since a sheet that is judged may hold any.
#![tactic(auto, using(crate::proofs::SheetTests::sheet_tests))]

ghost use Rattle.std.specs.Prelude.{◌≡◌};
ghost use Rattle.attributes.specs.Table.{is_between};
ghost use Rattle.sheets.specs.Table.{word_limit, has_list, allowed, literal_fits, entry_fits};

// Words are numbered from 1 to this.
const WORD_LIMIT: usize = events::WORD_LIMIT as usize;

// The tags: no literal, an integer, a decimal, a word, a list of integers and a list of words.
const NOTHING: usize = 0;

const INTEGER: usize = 1;

const DECIMAL: usize = 2;

const WORD: usize = 3;

const INTEGERS: usize = 4;

pub(crate) const WORDS: usize = 5;

// May a predicate of this kind have this tag?
#[tactic(auto, using(crate::proofs::SheetTests::sheet_tests), unfolding(crate::specs::Table::allowed))]
fn allowed_tag(kind: usize, tag: usize) -> bool
    ensures { result ≡ allowed kind tag }
{
    match (kind, tag) {
        // variable, negated variable
        (10..=11, NOTHING) => true,
        // in, not in
        (20..=21, INTEGERS..=WORDS) => true,
        // <, <=, >=, >
        (30..=33, INTEGER..=DECIMAL) => true,
        // =, <>
        (40..=41, INTEGER..=WORD) => true,
        // one of, none of, all of, not all of
        (50..=53, INTEGERS..=WORDS) => true,
        // is null, is not null, is empty, is not empty
        (60..=63, NOTHING) => true,
        _ => false,
    }
}

// Are x and y as the tag asks?
#[tactic(auto, using(crate::proofs::SheetTests::sheet_tests), unfolding(crate::specs::Table::literal_fits))]
fn literal_fits(tag: usize, x: usize, y: usize) -> bool
    ensures { result ≡ literal_fits tag x y }
{
    match tag {
        NOTHING => x == 0 && y == 0,
        INTEGER => y == 0,
        DECIMAL => y <= usize::from(decimals::SCALE_LIMIT),
        WORD => is_word(x) && y == 0,
        _ => true,
    }
}

// Is this the number of a word? A rule has no word 0, which an event may have: `events::all_words` is another test.
pub(crate) fn is_word(x: usize) -> bool
    ensures { result ≡ is_between 1 x word_limit }
{
    matches!(x, 1..=WORD_LIMIT)
}

// May an entry of these numbers stand in a sheet?
#[tactic(auto, using(crate::proofs::SheetTests::sheet_tests), unfolding(crate::specs::Table::entry_fits))]
pub(crate) fn entry_fits(kind: usize, attribute: usize, tag: usize, x: usize, y: usize) -> bool
    ensures { result ≡ entry_fits kind attribute tag x y }
{
    if is_operator(kind) {
        return attribute == 0 && tag == NOTHING && x == 0 && y == 0;
    }
    allowed_tag(kind, tag) && literal_fits(tag, x, y)
}

// Is an entry of this kind And, Or or Not?
fn is_operator(kind: usize) -> bool
    ensures { result ≡ is_between 1 kind 3 }
{
    matches!(kind, 1..=3)
}

// Has an entry of this tag a list?
pub(crate) fn has_list(tag: usize) -> bool
    ensures { result ≡ has_list tag }
{
    matches!(tag, INTEGERS..=WORDS)
}
