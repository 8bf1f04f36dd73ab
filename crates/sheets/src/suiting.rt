// The predicates of a sheet one by one: whether each names an attribute of the table and suits its kind.
ghost use Rattle.std.specs.Prelude.{◌≡◌, ◌+◌, ◌*◌, ◌<◌, ◌≤◌, length};
ghost use Rattle.error.specs.Answers.{answered};
ghost use Rattle.attributes.specs.Table.{attribute_limit, table_size};
ghost use Rattle.sheets.specs.Suiting.{suit_answer, entry_answer, predicates_answer, ReadyTable, ReadyEntry, ReadySheet};

use super::{Shape, Sheet};
use attributes::AttributeId;
use error::Refusal;

// The answer for a predicate by its attribute, kind and tag. Both stay numbers, of a form that is accepted: `suit_answer` is over numbers.
#[tactic(auto, using(crate::proofs::SheetTests::sheet_tests), unfolding(crate::specs::Suiting::suit_answer))]
fn check_suits(attributes: &[u8], attribute: usize, kind: u8, tag: u8) -> Result<(), Refusal>
    requires { ReadyTable attributes.now }
    ensures { answered result ≡ suit_answer attributes.now attribute kind tag }
{
    if attributes::len(attributes) <= attribute {
        return Err(Refusal::NoAttribute);
    }
    let wanted = predicates::kind_of(kind);
    let found = attributes::by_id(attributes, AttributeId(attribute));
    if !predicates::suits(wanted, tag, found) {
        return Err(Refusal::NotSuited);
    }
    Ok(())
}

impl Sheet<'_> {
    // The answer for entry i: only a predicate is asked.
    #[tactic(auto, using(crate::proofs::SheetTests::sheet_tests), unfolding(crate::specs::Suiting::entry_answer))]
    fn check_entry(self, i: usize, attributes: &[u8]) -> Result<(), Refusal>
        requires { ReadyEntry self.first self.numbers.now i attributes.now }
        ensures { answered result ≡ entry_answer attributes.now self.entry.first self.entry.numbers.now i }
    {
        match self.shape(i) {
            Shape::Joins(_) | Shape::Negates => Ok(()),
            Shape::Stands => {
                let kind = self.field(i, 0) as u8;
                let tag = self.field(i, 2) as u8;
                check_suits(attributes, self.field(i, 1), kind, tag)
            }
        }
    }

    // The answer for the predicates of a sheet whose form is accepted: that of the first faulty one. The attributes stay a slice, since
    // `ReadySheet` asks less of them than that they are sound.
    #[tactic(auto, using(crate::proofs::SuitingLaws::suiting_steps))]
    pub fn check_predicates(self, attributes: &[u8]) -> Result<(), Refusal>
        requires { ReadySheet self.first self.numbers.now attributes.now }
        ensures { answered result ≡ predicates_answer attributes.now self.entry.first self.entry.numbers.now }
    {
        let n = self.number(self.first - 1);
        for i in 0..n {
            self.check_entry(i, attributes)?;
        }
        Ok(())
    }
}
