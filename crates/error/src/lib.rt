// The refusals of a call, by name: what error.rs is in the Rust. Each has the number of its row in the table of answers, and the table's
// numbers stand here and nowhere else in the code; specs/Answers.antt says when each is given.
#![tactic(auto)]

ghost use Rattle.std.specs.Prelude.{◌≡◌, Some};
ghost use Rattle.error.specs.Answers.{Refused, number, answered};
ghost use Rattle.error.specs.Texts.{refusal_text};

use std::error::Error;
use std::fmt;

// The number in the table of a call that did what it says.
pub const DONE: u8 = 0;

// The number in the table of a dated value that was out of date: its attribute is undefined now.
pub const NOT_SET: u8 = 40;

#[derive(Clone, Copy, Debug, PartialEq, Eq)]
pub enum Refusal {
    SheetMalformed,
    LimitPassed,
    NameTwice,
    NoAttribute,
    OtherKind,
    NotSuited,
    IdLive,
    IdNotLive,
    NoRoom,
    BookDamaged,
    BufferShort,
    EventUnsuited,
}

impl Refusal {
    // The refusal's number in the table: a method and no `From`, so that it has its name at the call, as `number` below has.
    pub fn number(self) -> u8
        ensures { result ≡ number (Refused self) }
    {
        match self {
            Refusal::SheetMalformed => 1,
            Refusal::LimitPassed => 2,
            Refusal::NameTwice => 3,
            Refusal::NoAttribute => 4,
            Refusal::OtherKind => 5,
            Refusal::NotSuited => 6,
            Refusal::IdLive => 7,
            Refusal::IdNotLive => 8,
            Refusal::NoRoom => 9,
            Refusal::BookDamaged => 10,
            Refusal::BufferShort => 11,
            Refusal::EventUnsuited => 12,
        }
    }
}

impl fmt::Display for Refusal {
    ghost output = { λ refusal. Some (refusal_text refusal) };

    fn fmt<W: fmt::Write>(&self, f: &mut fmt::Formatter<W>) -> fmt::Result {
        f.write_str(match self {
            Refusal::SheetMalformed => "the numbers handed in are no rule sheet",
            Refusal::LimitPassed => "a limit is passed",
            Refusal::NameTwice => "an attribute's name is defined twice",
            Refusal::NoAttribute => "there is no such attribute",
            Refusal::OtherKind => "an event's value is of another kind",
            Refusal::NotSuited => "a predicate does not suit its attribute's kind",
            Refusal::IdLive => "the rule id is live already",
            Refusal::IdNotLive => "the rule id to delete is not live",
            Refusal::NoRoom => "a room count would pass its limit",
            Refusal::BookDamaged => "the book lacks a mark of a sound one",
            Refusal::BufferShort => "the report buffer is shorter than the number of live rules",
            Refusal::EventUnsuited => "the event does not suit the book",
        })
    }
}

impl Error for Refusal {}

// The number that stands in the table for what a call gave.
pub fn number(given: Result<(), Refusal>) -> u8
    ensures { result ≡ number (answered given) }
{
    given.map_or_else(|refusal| refusal.number(), |_| DONE)
}
