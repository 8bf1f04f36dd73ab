// The elements of a literal's list: a part of a book's bytes, 8 bytes each, read where they stand.
ghost use Rattle.std.specs.Prelude.{◌≡◌};
ghost use Rattle.predicates.specs.Integers.{integers_of};

use lists::Elements;
use words::Word;

pub const ELEMENT_SIZE: usize = 8;

#[derive(Clone, Copy)]
pub struct Stored<'a>(pub &'a [u8]);

impl<'a> Elements for Stored<'a> {
    ghost items = { λ s. integers_of s.0.now };

    #[tactic(auto, using(crate::specs::IntegersLaws::integers_length))]
    fn count(self) -> usize {
        self.0.len() / ELEMENT_SIZE
    }

    #[tactic(auto, using(crate::specs::IntegersLaws::element_laws), unfolding(words::specs::Word::signed_word))]
    fn element(self, k: usize) -> i64 {
        i64::read(self.0, ELEMENT_SIZE * k)
    }
}
