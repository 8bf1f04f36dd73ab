// Values and events: what AttributeValue and Event of events.rs are in the Rust. An event is made, read and judged here; the crate
// `filling` fills it.
#![tactic(auto)]

ghost use Rattle.std.specs.Prelude.{◌≡◌, ◌+◌, ◌*◌, ◌≤◌, ◌<◌, length};
ghost use Rattle.lists.specs.Sets.{list_limit};
ghost use Rattle.attributes.specs.Table.{attribute_limit};
ghost use Rattle.events.specs.Values.{kind_number_or, value_number, is_up_to, all_words, is_list, value_of};
ghost use Rattle.events.specs.Events.{event_of, Shaped, value_at, list_at, value_in, list_in, fresh_of};
ghost use Rattle.events.specs.Suits.{list_suits, in_range, place_suits, suits_of};

use attributes::{ATTRIBUTE_LIMIT, AttributeId, AttributeKind, AttributeTable};
use decimals::Decimal;
use lists::LIST_LIMIT;

// The greatest word number.
pub const WORD_LIMIT: i64 = 65535;

// The places of all lists of an event: a row for each attribute.
pub const STORE_SIZE: usize = LIST_LIMIT * ATTRIBUTE_LIMIT;

// What stands at a place for the number of a kind where the value is undefined.
pub const UNDEFINED: u8 = 0;

// A word's number: 1 to 65,535 in a rule, 0 in an event for a word that no rule uses. A type of its own, so that no attribute number can
// stand for it.
#[derive(Clone, Copy, Debug, PartialEq, Eq)]
pub struct StringId(pub i64);

// What an event holds of an attribute. The elements of a list stand beside it, in the event's list store. No `==`: a decimal has none.
#[derive(Clone, Copy, Debug)]
pub enum AttributeValue {
    Undefined,
    Boolean(bool),
    Integer(i64),
    Float(Decimal),
    String(StringId),
    IntegerList,
    StringList,
}

// An event: the number of its attributes, and a place for each. A place holds the number of the value's kind, or 0 where it is undefined;
// the number of a boolean (0 or 1), an integer, a decimal or a word; a decimal's scale; a list's length. The elements of the list of
// attribute i stand in row i of the list store. Places from `count` on are not judged.
// Numbers in arrays, and no array of values: a caller may hand in any numbers, for `suits` to judge, and a list is lent out of the store.
#[derive(Clone, Copy)]
pub struct Event {
    pub count: usize,
    pub kinds: [u8; ATTRIBUTE_LIMIT],
    pub numbers: [i64; ATTRIBUTE_LIMIT],
    pub scales: [u8; ATTRIBUTE_LIMIT],
    pub lengths: [usize; ATTRIBUTE_LIMIT],
    pub lists: [i64; STORE_SIZE],
}

// Does the number lie from 0 to the limit?
pub fn up_to(number: i64, limit: i64) -> bool
    ensures { result ≡ is_up_to number limit }
{
    (0..=limit).contains(&number)
}

// Is every element a word number?
pub fn all_words(list: &[i64]) -> bool
    ensures { result ≡ all_words list.now }
{
    list.iter().all(|word| up_to(*word, WORD_LIMIT))
}

impl AttributeValue {
    // The kind, unless the value is undefined.
    pub fn kind(self) -> Option<AttributeKind>
        ensures { kind_number_or result ≡ value_number self }
    {
        match self {
            AttributeValue::Undefined => None,
            AttributeValue::Boolean(_) => Some(AttributeKind::Boolean),
            AttributeValue::Integer(_) => Some(AttributeKind::Integer),
            AttributeValue::Float(_) => Some(AttributeKind::Float),
            AttributeValue::String(_) => Some(AttributeKind::String),
            AttributeValue::IntegerList => Some(AttributeKind::IntegerList),
            AttributeValue::StringList => Some(AttributeKind::StringList),
        }
    }
}

// The number that stands at a place for a kind, or for none.
pub fn kind_number(kind: Option<AttributeKind>) -> u8
    ensures { result ≡ kind_number_or kind }
{
    kind.map_or(UNDEFINED, u8::from)
}

// The value of a place, by the number of its kind. A number of no kind is undefined. Numbers, here and in what follows, for the reason that
// `Event` gives: a caller may hand in any. They come one by one, as `Event` has them in arrays apart.
#[tactic(auto, using(crate::proofs::WordsLaws::zero_bits), unfolding(crate::specs::Values::value_of))]
fn value_of(kind: u8, number: i64, scale: u8) -> AttributeValue
    ensures { result ≡ value_of kind number scale }
{
    match AttributeKind::try_from(kind) {
        Err(_) => AttributeValue::Undefined,
        Ok(AttributeKind::Boolean) => AttributeValue::Boolean(number != 0),
        Ok(AttributeKind::Integer) => AttributeValue::Integer(number),
        Ok(AttributeKind::Float) => AttributeValue::Float(Decimal { number, scale }),
        Ok(AttributeKind::String) => AttributeValue::String(StringId(number)),
        Ok(AttributeKind::IntegerList) => AttributeValue::IntegerList,
        Ok(AttributeKind::StringList) => AttributeValue::StringList,
    }
}

// The value of an attribute, of whatever slices hold the places of an event.
// Slices and no Event: the clauses of this function, `list_at` and `suits_lent` ask for no Event of a caller who holds the slices alone.
pub fn value_at(kinds: &[u8], numbers: &[i64], scales: &[u8], i: usize) -> AttributeValue
    requires { (i < length kinds.now) × (i < length numbers.now) × (i < length scales.now) }
    ensures { result ≡ value_at kinds.now numbers.now scales.now i }
{
    value_of(kinds[i], numbers[i], scales[i])
}

// The list of an attribute, as a part of the list store. A damaged length reaches no further than the row.
pub fn list_at<'a>(lists: &'a [i64], lengths: &[usize], i: usize) -> &'a [i64]
    requires { (list_limit * i + list_limit ≤ length lists.now) × (i < length lengths.now) }
    ensures { result.now ≡ list_at lists.now lengths.now i }
{
    let start = LIST_LIMIT * i;
    let end = start + lengths[i].min(LIST_LIMIT);
    &lists[start..end]
}

impl Event {
    // The value of an attribute.
    pub fn value(&self, i: usize) -> AttributeValue
        requires { i < attribute_limit }
        ensures { result ≡ value_in self.now i }
    {
        value_at(&self.kinds, &self.numbers, &self.scales, i)
    }

    // The list of an attribute.
    pub fn list(&self, i: usize) -> &[i64]
        requires { i < attribute_limit }
        ensures { result.now ≡ list_in self.now i }
    {
        list_at(&self.lists, &self.lengths, i)
    }
}

// Does the number of a kind stand for a list?
#[tactic(auto, unfolding(crate::specs::Values::is_list))]
fn is_list(kind: u8) -> bool
    ensures { result ≡ is_list kind }
{
    matches!(
        AttributeKind::try_from(kind),
        Ok(AttributeKind::IntegerList | AttributeKind::StringList)
    )
}

// Is the value in the range of its kind?
#[tactic(auto, using(crate::proofs::SuitsLaws::range_cases))]
fn in_range(kind: u8, number: i64, scale: u8, list: &[i64]) -> bool
    ensures { result ≡ in_range kind number scale list.now }
{
    match AttributeKind::try_from(kind) {
        Ok(AttributeKind::Boolean) => up_to(number, 1),
        Ok(AttributeKind::Float) => scale <= decimals::SCALE_LIMIT,
        Ok(AttributeKind::String) => up_to(number, WORD_LIMIT),
        Ok(AttributeKind::StringList) => all_words(list),
        _ => true,
    }
}

// Does a value that is a list stay inside its row and ascend?
fn list_suits(kind: u8, length: usize, list: &[i64]) -> bool
    ensures { result ≡ list_suits kind length list.now }
{
    !is_list(kind) || (length <= LIST_LIMIT && lists::ascending(list))
}

// Does a value suit an attribute whose kind has the number `own`?
#[tactic(auto, using(crate::proofs::SuitsLaws::place_cases))]
fn place_suits(own: u8, kind: u8, number: i64, scale: u8, length: usize, list: &[i64]) -> bool
    ensures { result ≡ place_suits own kind number scale length list.now }
{
    if kind == UNDEFINED {
        return true;
    }
    if kind != own {
        return false;
    }
    list_suits(kind, length, list) && in_range(kind, number, scale, list)
}

// Does the event that stands in these slices suit the table?
pub fn suits_lent(
    table: AttributeTable,
    count: usize,
    kinds: &[u8],
    numbers: &[i64],
    scales: &[u8],
    lengths: &[usize],
    lists: &[i64],
) -> bool
    requires { Shaped (event_of count kinds.now numbers.now scales.now lengths.now lists.now) }
    ensures { result ≡ suits_of table.entry.bytes.now
        (event_of count kinds.now numbers.now scales.now lengths.now lists.now) }
{
    count == table.len()
        && (0..count).all(|i| {
            let own = table.by_id(AttributeId(i));
            let list = list_at(lists, lengths, i);
            place_suits(own, kinds[i], numbers[i], scales[i], lengths[i], list)
        })
}

// Does the event suit the table?
pub fn suits(table: AttributeTable, event: &Event) -> bool
    ensures { result ≡ suits_of table.entry.bytes.now event.now }
{
    suits_lent(
        table,
        event.count,
        &event.kinds,
        &event.numbers,
        &event.scales,
        &event.lengths,
        &event.lists,
    )
}

// An event of so many attributes, all undefined.
#[tactic(auto, unfolding(crate::specs::Events::fresh_of))]
pub fn fresh(count: usize) -> Event
    ensures { result ≡ fresh_of count }
{
    Event {
        count,
        kinds: [UNDEFINED; ATTRIBUTE_LIMIT],
        numbers: [0; ATTRIBUTE_LIMIT],
        scales: [0; ATTRIBUTE_LIMIT],
        lengths: [0; ATTRIBUTE_LIMIT],
        lists: [0; STORE_SIZE],
    }
}
