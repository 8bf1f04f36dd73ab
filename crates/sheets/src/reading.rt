// The predicate that an entry of a well-formed sheet holds. Its list stays in the sheet, and is handed on as a part of it.
ghost use Rattle.std.specs.Prelude.{◌≡◌, ◌+◌, ◌*◌, ◌<◌, ◌≤◌, length, take, drop};
ghost use Rattle.decimals.specs.Decimals.{scale_limit};
ghost use Rattle.sheets.specs.Entries.{field_of};
ghost use Rattle.sheets.specs.WellFormed.{WellFormed};
ghost use Rattle.sheets.specs.Reading.{scaled_at, entry_of};

use super::{Entry, Sheet, table};
use decimals::Decimal;

impl<'a> Sheet<'a> {
    // x of entry i with the scale y, in normal form.
    #[tactic(auto, using(crate::proofs::SheetTests::signed_tests), unfolding(crate::specs::Reading::scaled_at))]
    fn scaled(self, i: usize) -> Decimal
        requires { (self.first + 5 * i + 5 ≤ length self.numbers.now) × (field_of self.first self.numbers.now i 4 ≤ scale_limit) }
        ensures { result ≡ scaled_at self.entry.first self.entry.numbers.now i }
    {
        let scale = self.field(i, 4) as u8;
        let number = self.numbers[self.first + 5 * i + 3];
        decimals::normal(Decimal { number, scale })
    }

    // Entry i of a sheet of n entries.
    pub fn read_predicate(self, n: usize, i: usize) -> Entry
        requires { WellFormed self.first self.numbers.now n × (i < n) }
        ensures { result ≡ entry_of self.entry.first self.entry.numbers.now n i }
    {
        let tag = self.field(i, 2);
        let bare = Entry {
            attribute: self.field(i, 1),
            kind: self.field(i, 0) as u8,
            tag: tag as u8,
            number: 0,
            scale: 0,
            start: 0,
            length: 0,
        };
        if table::has_list(tag) {
            Entry {
                start: self.first + 5 * n + self.field(i, 3),
                length: self.field(i, 4),
                ..bare
            }
        } else {
            let literal = self.scaled(i);
            Entry {
                number: literal.number,
                scale: literal.scale,
                ..bare
            }
        }
    }

    // The elements of a list that stands in the sheet.
    pub fn elements_of(self, start: usize, size: usize) -> &'a [i64]
        requires { start + size ≤ length self.numbers.now }
        ensures { result.now ≡ take size (drop start self.entry.numbers.now) }
    {
        &self.numbers[start..start + size]
    }
}
