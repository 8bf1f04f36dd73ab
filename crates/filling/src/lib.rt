// Filling an event: what EventBuilder of events.rs is in the Rust. A reading is handed in for an attribute by name; it is set, or refused
// and nothing is changed. A dated reading that is out of date makes its attribute undefined.
#![tactic(auto)]

ghost use Rattle.std.specs.Prelude.{◌≡◌, true, ◌+◌, ◌*◌, ◌≤◌, ◌<◌, length, IfOk};
ghost use Rattle.std.proofs.lemmas.List.Edits.{sets};
ghost use Rattle.error.specs.Answers.{answered};
ghost use Rattle.lists.specs.Sets.{list_limit};
ghost use Rattle.attributes.specs.Table.{attribute_limit, by_name};
ghost use Rattle.events.specs.Values.{kind_number_or};
ghost use Rattle.events.specs.Suits.{suits_of};
ghost use Rattle.filling.specs.Readings.{reading_number, of_kind, list_within, within_limits};
ghost use Rattle.filling.specs.Setting.{with_kind, with_scalar, with_list, with_reading};
ghost use Rattle.filling.specs.Filling.{place_of, refusal_of, place_for, answer_number, handed_back, filled_when, filled_of};
ghost use Rattle.filling.specs.Ages.{is_fresh, dated_of};

use attributes::{AttributeKind, AttributeTable};
use error::Refusal;
use events::{Event, StringId};
use lists::LIST_LIMIT;

// What is handed in for an attribute. The elements of a list stand beside it, as in an event. It is no AttributeValue: a scale or a word
// may be out of range, and is refused then.
// Nor are the two one generic: they differ in what `Float` holds alone, and a parameter for it would stand in every definition of either.
#[derive(Clone, Copy, Debug, PartialEq, Eq)]
pub enum Reading {
    Undefined,
    Boolean(bool),
    Integer(i64),
    Float(i64, i64),
    String(StringId),
    IntegerList,
    StringList,
}

// The date of a reading, the present, and the greatest age that the reading may have: all in seconds.
#[derive(Clone, Copy, Debug, PartialEq, Eq)]
pub struct Dates {
    pub stamp: u64,
    pub present: u64,
    pub greatest_age: u64,
}

// What a reading that is not refused does: it is set, or its attribute is undefined now, since it was out of date.
#[derive(Clone, Copy, Debug, PartialEq, Eq)]
pub enum Setting {
    Set,
    NotSet,
}

// What filling gives: the answer, and the event after, which a refusal hands back as it was. The event stays beside the answer, and not in
// it: the scope has filling as a step by value.
#[derive(Clone, Copy)]
pub struct Filled {
    pub answer: Result<Setting, Refusal>,
    pub event: Event,
}

impl Filled {
    // The answer's number in the table of answers.
    pub fn number(&self) -> u8
        ensures { result ≡ answer_number self.now }
    {
        match self.answer {
            Ok(Setting::Set) => error::DONE,
            Ok(Setting::NotSet) => error::NOT_SET,
            Err(refusal) => refusal.number(),
        }
    }
}

impl Reading {
    // The kind, unless the reading is undefined.
    fn kind(self) -> Option<AttributeKind>
        ensures { kind_number_or result ≡ reading_number self }
    {
        match self {
            Reading::Undefined => None,
            Reading::Boolean(_) => Some(AttributeKind::Boolean),
            Reading::Integer(_) => Some(AttributeKind::Integer),
            Reading::Float(_, _) => Some(AttributeKind::Float),
            Reading::String(_) => Some(AttributeKind::String),
            Reading::IntegerList => Some(AttributeKind::IntegerList),
            Reading::StringList => Some(AttributeKind::StringList),
        }
    }
}

// Is the list, as it was given, no longer than a list may be?
fn list_within(list: &[i64]) -> bool
    ensures { result ≡ list_within list.now }
{
    list.len() <= LIST_LIMIT
}

// Does the reading pass no limit?
// Name, reading and list come one by one here and in what follows, as in EventBuilder's methods: a caller has them apart.
fn within_limits(reading: Reading, list: &[i64]) -> bool
    ensures { result ≡ within_limits reading list.now }
{
    match reading {
        Reading::Undefined | Reading::Boolean(_) | Reading::Integer(_) => true,
        Reading::Float(_, scale) => events::up_to(scale, i64::from(decimals::SCALE_LIMIT)),
        Reading::String(word) => events::up_to(word.0, events::WORD_LIMIT),
        Reading::IntegerList => list_within(list),
        Reading::StringList => list_within(list) && events::all_words(list),
    }
}

// Writes a row to the list store.
fn write_row(lists: &mut [i64], i: usize, places: &[i64])
    requires { (list_limit * i + list_limit ≤ length lists.old) × (length places.now ≡ list_limit) }
    ensures { lists.new ≡ sets lists.old (list_limit * i) places.now }
{
    let start = LIST_LIMIT * i;
    lists[start..start + LIST_LIMIT].copy_from_slice(places);
}

// Sets a value at a place that is no list.
// The kind is a number here and in `set_list`: the definitions `with_scalar` and `with_list` are over the number.
fn set_scalar(event: &mut Event, i: usize, kind: u8, number: i64, scale: u8)
    requires { i < attribute_limit }
    ensures { event.new ≡ with_scalar event.old i kind number scale }
{
    event.kinds[i] = kind;
    event.numbers[i] = number;
    event.scales[i] = scale;
}

// Sets a list at a place, sorted and made distinct.
fn set_list(event: &mut Event, i: usize, kind: u8, list: &[i64])
    requires { (i < attribute_limit) × (length list.now ≤ list_limit) }
    ensures { event.new ≡ with_list event.old i kind list.now }
{
    let row = lists::settle(list);
    event.kinds[i] = kind;
    event.lengths[i] = row.length;
    write_row(&mut event.lists, i, &row.places);
}

// Sets a reading at a place.
fn set_reading(event: &mut Event, i: usize, reading: Reading, list: &[i64])
    requires { (i < attribute_limit) × (within_limits reading list.now ≡ true) }
    ensures { event.new ≡ with_reading event.old i reading list.now }
{
    let kind = events::kind_number(reading.kind());
    match reading {
        Reading::Undefined => event.kinds[i] = kind,
        Reading::Boolean(value) => set_scalar(event, i, kind, i64::from(value), 0),
        Reading::Integer(number) => set_scalar(event, i, kind, number, 0),
        Reading::Float(number, scale) => set_scalar(event, i, kind, number, scale as u8),
        Reading::String(word) => set_scalar(event, i, kind, word.0, 0),
        Reading::IntegerList | Reading::StringList => set_list(event, i, kind, list),
    }
}

// Does a reading suit an attribute whose kind has the number `own`? It stays a number, as `AttributeTable::by_id` gives it.
fn of_kind(reading: Reading, own: u8) -> bool
    ensures { result ≡ of_kind reading own }
{
    reading.kind().is_none_or(|kind| u8::from(kind) == own)
}

// Where the reading goes, or the first refusal.
#[tactic(auto, unfolding(crate::specs::Filling::place_for, crate::specs::Filling::refusal_of))]
fn place_for(
    table: AttributeTable,
    event: &Event,
    name: &[u8],
    reading: Reading,
    list: &[i64],
) -> Result<usize, Refusal>
    ensures whole { result ≡ place_for (suits_of table.entry.bytes.now event.now)
        table.entry.bytes.now name.now reading list.now }
    ensures answer { answered result ≡ refusal_of (suits_of table.entry.bytes.now event.now)
        table.entry.bytes.now name.now reading list.now }
    ensures place { IfOk result (λ i. i ≡ place_of (by_name table.entry.bytes.now name.now)) }
    ensures within { IfOk result (λ i. i < attribute_limit) }
    ensures limits { IfOk result (λ _. within_limits reading list.now ≡ true) }
{
    if !events::suits(table, event) {
        return Err(Refusal::EventUnsuited);
    }
    let id = table.by_name(name).ok_or(Refusal::NoAttribute)?;
    if !of_kind(reading, table.by_id(id)) {
        return Err(Refusal::OtherKind);
    }
    if !within_limits(reading, list) {
        return Err(Refusal::LimitPassed);
    }
    Ok(id.0)
}

// Sets the reading if it is fresh, and makes its attribute undefined if not; or refuses it and changes nothing.
fn set_when(
    fresh: bool,
    table: AttributeTable,
    event: &mut Event,
    name: &[u8],
    reading: Reading,
    list: &[i64],
) -> Result<Setting, Refusal>
    ensures { handed_back result event.new ≡ filled_when fresh table.entry.bytes.now event.old name.now reading list.now }
{
    let i = place_for(table, event, name, reading, list)?;
    let (reading, setting) = if fresh {
        (reading, Setting::Set)
    } else {
        (Reading::Undefined, Setting::NotSet)
    };
    set_reading(event, i, reading, list);
    Ok(setting)
}

// The same of an event by value.
fn fill_when(
    fresh: bool,
    table: AttributeTable,
    mut event: Event,
    name: &[u8],
    reading: Reading,
    list: &[i64],
) -> Filled
    ensures { result ≡ filled_when fresh table.entry.bytes.now event name.now reading list.now }
{
    let answer = set_when(fresh, table, &mut event, name, reading, list);
    Filled { answer, event }
}

impl Dates {
    // Is a reading of these dates neither too far ahead nor too old?
    fn is_fresh(self, tolerance: u64) -> bool
        ensures { result ≡ is_fresh tolerance self.stamp self.present self.greatest_age }
    {
        self.stamp.saturating_sub(self.present) <= tolerance
            && self.present.saturating_sub(self.stamp) <= self.greatest_age
    }
}

// Sets a reading for the attribute of this name.
pub fn fill(
    table: AttributeTable,
    event: Event,
    name: &[u8],
    reading: Reading,
    list: &[i64],
) -> Filled
    ensures { result ≡ filled_of table.entry.bytes.now event name.now reading list.now }
{
    fill_when(true, table, event, name, reading, list)
}

// Sets a reading that bears a date, if it is not out of date.
pub fn fill_dated(
    table: AttributeTable,
    event: Event,
    name: &[u8],
    reading: Reading,
    list: &[i64],
    dates: Dates,
) -> Filled
    ensures { result ≡ dated_of table.entry.bytes.now event name.now reading list.now dates.stamp dates.present dates.greatest_age }
{
    fill_when(dates.is_fresh(0), table, event, name, reading, list)
}
