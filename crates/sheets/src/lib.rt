// The rule sheet: n, then n entries of five numbers in prefix order, then the elements of their lists.
#![tactic(auto)]

ghost use Rattle.std.specs.Prelude.{◌≡◌, ◌+◌, ◌*◌, ◌<◌, ◌≤◌, length, get_or, pos};
ghost use Rattle.error.specs.Answers.{answered};
ghost use Rattle.sheets.specs.Entries.{natural_of, field_of, kind_of};
ghost use Rattle.sheets.specs.Spells.{shape_of};
ghost use Rattle.sheets.specs.Form.{form_answer};

use error::Refusal;
use evaluation::Operator;

mod form;
mod reading;
mod suiting;
mod table;

// The most entries of a sheet.
pub const ENTRY_LIMIT: usize = 128;

// The numbers of a sheet, and the place of its first entry, with n right before it: 1 in the edition of today.
#[derive(Clone, Copy)]
pub struct Sheet<'a> {
    pub numbers: &'a [i64],
    pub first: usize,
}

// What an entry is in the tree: And or Or over two subtrees, Not over one, or a predicate.
#[derive(Clone, Copy, Debug, PartialEq, Eq)]
pub enum Shape {
    Joins(Operator),
    Negates,
    Stands,
}

// An entry as it is handed on: the numbers of its predicate, the decimal in normal form, and where its list stands in the sheet.
// Kind, tag, start and length stay numbers: `entry_of` is a record of numbers, and `predicate_as` takes the list out of the sheet.
#[derive(Clone, Copy)]
pub struct Entry {
    pub attribute: usize,
    pub kind: u8,
    pub tag: u8,
    pub number: i64,
    pub scale: u8,
    pub start: usize,
    pub length: usize,
}

// A number of a sheet as a natural number; a negative one becomes a number that fits nowhere, and no None: `natural_of` is a number.
// By hand, since `try_from` works with the sign's bits too, at each number that is read.
#[tactic(auto, using(crate::proofs::SheetTests::signed_tests), unfolding(crate::specs::Entries::natural_of))]
pub fn natural(x: i64) -> usize
    ensures { result ≡ natural_of x }
{
    if x < 0 { usize::MAX } else { x as usize }
}

impl Sheet<'_> {
    // The number at a place of the sheet.
    pub fn number(self, at: usize) -> usize
        requires { at < length self.numbers.now }
        ensures { result ≡ natural_of (get_or self.entry.numbers.now at (pos 0)) }
    {
        natural(self.numbers[at])
    }

    // Number j of entry i: kind, attribute, tag, x, y.
    pub fn field(self, i: usize, j: usize) -> usize
        requires { self.first + 5 * i + j < length self.numbers.now }
        ensures { result ≡ field_of self.entry.first self.entry.numbers.now i j }
    {
        self.number(self.first + 5 * i + j)
    }

    // What entry i is in the tree, by its kind.
    #[tactic(auto, using(crate::proofs::SheetTests::sheet_tests), unfolding(crate::specs::Spells::shape_of))]
    pub fn shape(self, i: usize) -> Shape
        requires { self.first + 5 * i < length self.numbers.now }
        ensures { result ≡ shape_of (kind_of self.entry.first self.entry.numbers.now i) }
    {
        match self.field(i, 0) {
            1 => Shape::Joins(Operator::And),
            2 => Shape::Joins(Operator::Or),
            3 => Shape::Negates,
            _ => Shape::Stands,
        }
    }

    // What insert answers for the form of a sheet: the first refusal of the order, or that it is well formed and within the limits.
    #[tactic(auto, using(crate::proofs::SheetTests::signed_tests), unfolding(crate::specs::Form::form_answer))]
    pub fn check_form(self) -> Result<(), Refusal>
        requires { (1 ≤ self.first) × (self.first ≤ 2) }
        ensures { answered result ≡ form_answer self.entry.first self.entry.numbers.now }
    {
        if self.numbers.len() < self.first {
            return Err(Refusal::SheetMalformed);
        }
        let n = self.numbers[self.first - 1];
        if n < 1 {
            return Err(Refusal::SheetMalformed);
        }
        if (ENTRY_LIMIT as i64) < n {
            return Err(Refusal::LimitPassed);
        }
        self.check_entries(natural(n))
    }
}
