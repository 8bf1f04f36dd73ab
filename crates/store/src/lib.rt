// The store: a book's bytes, lent as a slice and laid out by limits that are parameters, and what reads and writes one thing in them.
// All other code goes through these functions. specs/Layout.antt says where each table stands, specs/Tables.antt how the bytes are read as
// a book.
// Bytes and limits stay two parameters: a reader has `&[u8]` and a writer `&mut [u8]`, so that a type of both would be two with the same
// methods, and `get_count` and `attributes_of` ask for less than the whole book.
#![tactic(auto)]

ghost use Rattle.std.specs.Prelude.{◌≡◌, ◌+◌, ◌*◌, ◌<◌, ◌≤◌, length, take, drop};
ghost use Rattle.words.specs.Word.{put};
ghost use Rattle.store.specs.Layout.{attributes_at, rules_at, parts_at, places_at, elements_at, order_at, size_of, Within, Laid};
ghost use Rattle.store.specs.Layout.{attributes_of};
ghost use Rattle.store.specs.Records.{count_at, count_of, put_front, put_back};
ghost use Rattle.store.specs.Records.{record_at, put_record, rule_at, put_rule};
ghost use Rattle.store.specs.Records.{place_at, put_place, element_word, put_element, entry_at, put_entry};
ghost use Rattle.store.specs.Heads.{head_at};

use words::Word;

// How many rules, parts, child places and list elements a book has room for.
#[derive(Clone, Copy)]
pub struct Limits {
    pub rules: usize,
    pub parts: usize,
    pub places: usize,
    pub elements: usize,
}

// A part. `start` and `length` are its run of child places or of list elements; `number` is the two's complement of a predicate's number.
// `level`, `size` and `cost` are those of the part as a tree.
// Kind and tag stay numbers: `get_record` reads any bytes and cannot fail, and its clause gives the bytes themselves.
// `start` and `length` stay numbers: a book is bytes, which lend no slice of numbers, and `record_at` gives the two as they stand.
#[derive(Clone, Copy)]
pub struct Record {
    pub kind: u8,
    pub attribute: u8,
    pub tag: u8,
    pub scale: u8,
    pub level: u8,
    pub size: u8,
    pub length: u16,
    pub start: u32,
    pub cost: u32,
    pub number: u64,
}

// A live rule: its id, and the number of its root part.
#[derive(Clone, Copy)]
pub struct Rule {
    pub id: u32,
    pub root: u32,
}

const RULE_COUNT_AT: usize = 0;

const PART_COUNT_AT: usize = 4;

const PLACE_COUNT_AT: usize = 8;

const ELEMENT_COUNT_AT: usize = 12;

const ATTRIBUTES_AT: usize = 16;

const RULES_AT: usize = ATTRIBUTES_AT + attributes::TABLE_SIZE;

const RULE_SIZE: usize = 8;

const RECORD_SIZE: usize = 24;

const PLACE_SIZE: usize = 2;

const ELEMENT_SIZE: usize = predicates::ELEMENT_SIZE;

const ENTRY_SIZE: usize = 2;

// Where the tables begin whose place the limits decide, and how many bytes a book takes.
impl Limits {
    fn parts_at(self) -> usize
        requires { Within self }
        ensures { result ≡ parts_at self }
    {
        RULES_AT + RULE_SIZE * self.rules
    }

    fn places_at(self) -> usize
        requires { Within self }
        ensures { result ≡ places_at self }
    {
        self.parts_at() + RECORD_SIZE * self.parts
    }

    fn elements_at(self) -> usize
        requires { Within self }
        ensures { result ≡ elements_at self }
    {
        self.places_at() + PLACE_SIZE * self.places
    }

    fn order_at(self) -> usize
        requires { Within self }
        ensures { result ≡ order_at self }
    {
        self.elements_at() + ELEMENT_SIZE * self.elements
    }

    pub fn size_of(self) -> usize
        requires { Within self }
        ensures { result ≡ size_of self }
    {
        self.order_at() + ENTRY_SIZE * self.parts
    }
}

// What a book counts in its head.
#[derive(Clone, Copy, Debug, PartialEq, Eq)]
pub enum Count {
    Rules,
    Parts,
    Places,
    Elements,
}

fn count_at(which: Count) -> usize
    ensures { result ≡ count_at which }
{
    match which {
        Count::Rules => RULE_COUNT_AT,
        Count::Parts => PART_COUNT_AT,
        Count::Places => PLACE_COUNT_AT,
        Count::Elements => ELEMENT_COUNT_AT,
    }
}

pub fn get_count(bytes: &[u8], which: Count) -> usize
    requires { attributes_at ≤ length bytes.now }
    ensures { result ≡ count_of which bytes.now }
{
    u32::read(bytes, count_at(which)) as usize
}

pub fn put_count(bytes: &mut [u8], which: Count, count: usize)
    requires { (attributes_at ≤ length bytes.old) × (count ≤ 65535) }
    ensures { bytes.new ≡ put 4 bytes.old (count_at which) count }
{
    (count as u32).write(bytes, count_at(which))
}

// The attribute table, as a part of the book.
pub fn attributes_of(bytes: &[u8]) -> &[u8]
    requires { rules_at ≤ length bytes.now }
    ensures { result.now ≡ attributes_of bytes.now }
{
    &bytes[ATTRIBUTES_AT..RULES_AT]
}

pub fn get_rule(bytes: &[u8], limits: Limits, i: usize) -> Rule
    requires { Laid limits bytes.now × (i < limits.rules) }
    ensures { result ≡ rule_at bytes.now i }
{
    let at = RULES_AT + RULE_SIZE * i;
    Rule {
        id: u32::read(bytes, at),
        root: u32::read(bytes, at + 4),
    }
}

pub fn put_rule(bytes: &mut [u8], limits: Limits, i: usize, rule: Rule)
    requires { Laid limits bytes.old × (i < limits.rules) }
    ensures { bytes.new ≡ put_rule bytes.old i rule }
{
    let at = RULES_AT + RULE_SIZE * i;
    rule.id.write(bytes, at);
    rule.root.write(bytes, at + 4)
}

pub fn get_record(bytes: &[u8], limits: Limits, i: usize) -> Record
    requires { Laid limits bytes.now × (i < limits.parts) }
    ensures { result ≡ record_at limits bytes.now i }
{
    let at = limits.parts_at() + RECORD_SIZE * i;
    Record {
        kind: u8::read(bytes, at),
        attribute: u8::read(bytes, at + 1),
        tag: u8::read(bytes, at + 2),
        scale: u8::read(bytes, at + 3),
        level: u8::read(bytes, at + 4),
        size: u8::read(bytes, at + 5),
        length: u16::read(bytes, at + 6),
        start: u32::read(bytes, at + 8),
        cost: u32::read(bytes, at + 12),
        number: u64::read(bytes, at + 16),
    }
}

fn put_front(bytes: &mut [u8], at: usize, content: Record)
    requires { at + 24 ≤ length bytes.old }
    ensures { bytes.new ≡ put_front bytes.old at content }
{
    content.kind.write(bytes, at);
    content.attribute.write(bytes, at + 1);
    content.tag.write(bytes, at + 2);
    content.scale.write(bytes, at + 3);
    content.level.write(bytes, at + 4);
    content.size.write(bytes, at + 5);
    content.length.write(bytes, at + 6)
}

fn put_back(bytes: &mut [u8], at: usize, content: Record)
    requires { at + 24 ≤ length bytes.old }
    ensures { bytes.new ≡ put_back bytes.old at content }
{
    content.start.write(bytes, at + 8);
    content.cost.write(bytes, at + 12);
    content.number.write(bytes, at + 16)
}

#[tactic(auto, unfolding(crate::specs::Records::put_record_in))]
pub fn put_record(bytes: &mut [u8], limits: Limits, i: usize, content: Record)
    requires { Laid limits bytes.old × (i < limits.parts) }
    ensures { bytes.new ≡ put_record limits bytes.old i content }
{
    let at = limits.parts_at() + RECORD_SIZE * i;
    put_front(bytes, at, content);
    put_back(bytes, at, content)
}

// Child places, list elements and entries of the order table keep a pair of functions each: a trait over the three tables would be longer
// than the six one-line bodies, for it has to state each table's place, limit and number, and that the table lies within the book.
pub fn get_place(bytes: &[u8], limits: Limits, k: usize) -> u16
    requires { Laid limits bytes.now × (k < limits.places) }
    ensures { result ≡ place_at limits bytes.now k }
{
    u16::read(bytes, limits.places_at() + PLACE_SIZE * k)
}

pub fn put_place(bytes: &mut [u8], limits: Limits, k: usize, child: u16)
    requires { Laid limits bytes.old × (k < limits.places) }
    ensures { bytes.new ≡ put_place limits bytes.old k child }
{
    child.write(bytes, limits.places_at() + PLACE_SIZE * k)
}

// A list element, as its two's complement.
pub fn get_element(bytes: &[u8], limits: Limits, k: usize) -> u64
    requires { Laid limits bytes.now × (k < limits.elements) }
    ensures { result ≡ element_word limits bytes.now k }
{
    u64::read(bytes, limits.elements_at() + ELEMENT_SIZE * k)
}

pub fn put_element(bytes: &mut [u8], limits: Limits, k: usize, element: u64)
    requires { Laid limits bytes.old × (k < limits.elements) }
    ensures { bytes.new ≡ put_element limits bytes.old k element }
{
    element.write(bytes, limits.elements_at() + ELEMENT_SIZE * k)
}

// The bytes of a whole list, as a part of the book.
pub fn elements_of(bytes: &[u8], limits: Limits, start: usize, count: usize) -> &[u8]
    requires { Laid limits bytes.now × (start + count ≤ limits.elements) }
    ensures { result.now ≡ take (8 * count) (drop (elements_at limits + 8 * start) bytes.now) }
{
    let from = limits.elements_at() + ELEMENT_SIZE * start;
    let to = from + ELEMENT_SIZE * count;
    &bytes[from..to]
}

// An entry of the order table.
pub fn get_entry(bytes: &[u8], limits: Limits, k: usize) -> u16
    requires { Laid limits bytes.now × (k < limits.parts) }
    ensures { result ≡ entry_at limits bytes.now k }
{
    u16::read(bytes, limits.order_at() + ENTRY_SIZE * k)
}

pub fn put_entry(bytes: &mut [u8], limits: Limits, k: usize, part: u16)
    requires { Laid limits bytes.old × (k < limits.parts) }
    ensures { bytes.new ≡ put_entry limits bytes.old k part }
{
    part.write(bytes, limits.order_at() + ENTRY_SIZE * k)
}

// What the order of two parts looks at first: the kind, the first four bytes as one number, the number, and the run of child places or of
// list elements.
// The kind stays a number here too: `get_head` reads any bytes and cannot fail, and `head_at` gives the byte itself.
#[derive(Clone, Copy)]
pub struct Head {
    pub kind: u8,
    pub first: u32,
    pub number: u64,
    pub length: usize,
    pub start: usize,
}

pub fn get_head(bytes: &[u8], limits: Limits, i: usize) -> Head
    requires { Laid limits bytes.now × (i < limits.parts) }
    ensures { result ≡ head_at limits bytes.now i }
{
    let at = limits.parts_at() + RECORD_SIZE * i;
    Head {
        kind: u8::read(bytes, at),
        first: u32::read(bytes, at),
        number: u64::read(bytes, at + 16),
        length: usize::from(u16::read(bytes, at + 6)),
        start: u32::read(bytes, at + 8) as usize,
    }
}
