// The form of a sheet whose number of entries is known: each entry by itself, the tree that they make, and their lists.
ghost use Rattle.std.specs.Prelude.{◌≡◌, ◌+◌, ◌*◌, ◌<◌, ◌≤◌, length};
ghost use Rattle.error.specs.Answers.{answered};
ghost use Rattle.lists.specs.Below.{all_below};
ghost use Rattle.sheets.specs.Table.{entry_limit};
ghost use Rattle.sheets.specs.Entries.{field_of};
ghost use Rattle.sheets.specs.Bodies.{tag_of, bodies_at, list_length_at, all_words, elements_fit};
ghost use Rattle.sheets.specs.WellFormed.{entry_fits_at};
ghost use Rattle.sheets.specs.Form.{subtrees, one_tree, list_fits, lists_fit, list_short, is_well_formed, counted_answer};

use super::{Shape, Sheet, natural, table};
use error::Refusal;

impl Shape {
    // How many subtrees follow an entry.
    fn subtrees(self) -> usize
        ensures { result ≡ subtrees self }
    {
        match self {
            Shape::Joins(_) => 2,
            Shape::Negates => 1,
            Shape::Stands => 0,
        }
    }
}

// Is each element a word? Not `events::all_words`, for which 0 is one.
fn all_words(elements: &[i64]) -> bool
    ensures { result ≡ all_words elements.now }
{
    elements.iter().all(|x| table::is_word(natural(*x)))
}

// May these be the elements of a list of this tag? The tag stays a number, since the sheet may hold any.
#[tactic(auto, using(crate::proofs::SheetTests::sheet_tests), unfolding(crate::specs::Bodies::elements_fit))]
fn elements_fit(tag: usize, elements: &[i64]) -> bool
    ensures { result ≡ elements_fit tag elements.now }
{
    lists::ascending(elements) && (tag != table::WORDS || all_words(elements))
}

// The entries of a sheet whose number is known. They lie in it.
#[derive(Clone, Copy)]
struct Entries<'a> {
    sheet: Sheet<'a>,
    count: usize,
    ghost few: { count ≤ entry_limit },
    ghost inside: { bodies_at sheet.first count ≤ length sheet.numbers.now },
}

impl Entries<'_> {
    // May entry i stand in a sheet?
    fn fits(self, i: usize) -> bool
        requires { i < self.count }
        ensures { let s = self.entry.sheet in result ≡ entry_fits_at s.first s.numbers.now i }
    {
        let sheet = self.sheet;
        let kind = sheet.field(i, 0);
        let attribute = sheet.field(i, 1);
        let tag = sheet.field(i, 2);
        table::entry_fits(kind, attribute, tag, sheet.field(i, 3), sheet.field(i, 4))
    }

    // May each entry?
    fn all_fit(self) -> bool
        ensures { let s = self.entry.sheet in result ≡ all_below (entry_fits_at s.first s.numbers.now) self.entry.count }
    {
        (0..self.count).all(|i| self.fits(i))
    }

    // Do they make one tree?
    #[tactic(auto, using(crate::proofs::OwedLaws::owed_steps), unfolding(crate::specs::Form::one_tree))]
    fn one_tree(self) -> bool
        ensures { let s = self.entry.sheet in result ≡ one_tree s.first s.numbers.now self.entry.count }
    {
        let mut owed: usize = 1;
        for i in 0..self.count {
            if owed == 0 {
                return false;
            }
            owed = owed + self.sheet.shape(i).subtrees() - 1;
        }
        owed == 0
    }

    // Where their lists begin.
    fn bodies(self) -> usize
        ensures { result ≡ bodies_at self.entry.sheet.first self.entry.count }
    {
        self.sheet.first + 5 * self.count
    }

    // The length of the list of entry i.
    #[tactic(auto, using(crate::proofs::SheetTests::sheet_tests), unfolding(crate::specs::Bodies::list_length_at))]
    fn list_length(self, i: usize) -> usize
        requires { i < self.count }
        ensures { let s = self.entry.sheet in result ≡ list_length_at s.first s.numbers.now i }
    {
        if table::has_list(self.sheet.field(i, 2)) {
            self.sheet.field(i, 4)
        } else {
            0
        }
    }

    // Does the list of entry i, if it has one, start where the last ended, lie in the sheet and hold what it may?
    #[tactic(auto, using(crate::proofs::SheetTests::sheet_tests), unfolding(crate::specs::Form::list_fits))]
    fn list_fits(self, i: usize, start: usize, size: usize) -> bool
        requires { (i < self.count) × (bodies_at self.sheet.first self.count + start ≤ length self.sheet.numbers.now) }
        ensures { let s = self.entry.sheet in
            let base = bodies_at s.first self.entry.count in
            result ≡ list_fits s.numbers.now base start (tag_of s.first s.numbers.now i) (field_of s.first s.numbers.now i 3) size }
    {
        let tag = self.sheet.field(i, 2);
        if !table::has_list(tag) {
            return true;
        }
        let bodies = &self.sheet.numbers[self.bodies() + start..];
        self.sheet.field(i, 3) == start
            && size <= bodies.len()
            && elements_fit(tag, &bodies[..size])
    }

    // Do the lists stand one after the other, the last at the end of the sheet?
    #[tactic(auto, using(crate::proofs::ListFitsLaws::list_steps), unfolding(crate::specs::Form::lists_fit))]
    fn lists_fit(self) -> bool
        ensures { let s = self.entry.sheet in result ≡ lists_fit s.first s.numbers.now self.entry.count }
    {
        let mut start: usize = 0;
        for i in 0..self.count {
            let size = self.list_length(i);
            if !self.list_fits(i, start, size) {
                return false;
            }
            start += size;
        }
        self.bodies() + start == self.sheet.numbers.len()
    }

    // Has each list at most as many elements as a list may have?
    fn lists_short(self) -> bool
        ensures { let s = self.entry.sheet in result ≡ all_below (list_short s.first s.numbers.now) self.entry.count }
    {
        (0..self.count).all(|i| self.list_length(i) <= lists::LIST_LIMIT)
    }

    // Are these the entries of a well-formed sheet, with their lists?
    #[tactic(auto, using(crate::proofs::SheetTests::sheet_tests), unfolding(crate::specs::Form::is_well_formed))]
    fn well_formed(self) -> bool
        ensures { let s = self.entry.sheet in result ≡ is_well_formed s.first s.numbers.now self.entry.count }
    {
        self.all_fit() && self.one_tree() && self.lists_fit()
    }
}

impl Sheet<'_> {
    // The answer for a sheet of n entries: its form is judged whole before the length of any list.
    #[tactic(auto, using(crate::proofs::FormLaws::form_tests), unfolding(crate::specs::Form::counted_answer))]
    pub(crate) fn check_entries(self, n: usize) -> Result<(), Refusal>
        requires { (self.first ≤ 2) × (n ≤ entry_limit) }
        ensures { answered result ≡ counted_answer self.entry.first self.entry.numbers.now n }
    {
        if self.numbers.len() < self.first + 5 * n {
            return Err(Refusal::SheetMalformed);
        }
        let entries = Entries {
            sheet: self,
            count: n,
        };
        if !entries.well_formed() {
            return Err(Refusal::SheetMalformed);
        }
        if !entries.lists_short() {
            return Err(Refusal::LimitPassed);
        }
        Ok(())
    }
}
