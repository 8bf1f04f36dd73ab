// The attribute table: what AttributeTable, AttributeId, AttributeKind and AttributeDefinition of events.rs are in the Rust. The table is a
// part of a book's bytes, lent as a slice; specs/Table.antt says how it is laid out.
#![tactic(auto)]

ghost use Rattle.std.specs.Prelude.{◌≡◌, false, true, ◌+◌, ◌≤◌, ◌<◌, length, MatchOption, IfSome};
ghost use Rattle.std.proofs.lemmas.List.Edits.{sets};
ghost use Rattle.error.specs.Answers.{number, answered};
ghost use Rattle.attributes.specs.Kinds.{kind_number, IsKindOf};
ghost use Rattle.attributes.specs.Table.{attribute_limit, name_limit, table_size, record_at};
ghost use Rattle.attributes.specs.Table.{count_of, kind_at, length_at, name_at, named, first_below, by_name};
ghost use Rattle.attributes.specs.Definitions.{padded, added, outcome, defined_of};
ghost use Rattle.attributes.specs.Sound.{sound_attribute, sound_table};

use error::Refusal;

pub const ATTRIBUTE_LIMIT: usize = 24;

// The most bytes of a name.
pub const NAME_LIMIT: usize = 32;

// A record holds a kind, a name's length and the places of the name.
pub const RECORD_SIZE: usize = 2 + NAME_LIMIT;

// The table holds the number of attributes and the records.
pub const TABLE_SIZE: usize = 1 + RECORD_SIZE * ATTRIBUTE_LIMIT;

// An attribute by its number in the table. A type of its own, so that no word number can stand for it.
// Its bound stands in the clauses that need it: `.0` is public, and as an invariant it would be asked of each caller who makes one.
#[derive(Clone, Copy, Debug, PartialEq, Eq)]
pub struct AttributeId(pub usize);

// The kinds, with the number of each in a table and in an event; 0 stands there for what is undefined.
#[derive(Clone, Copy, Debug, PartialEq, Eq)]
pub enum AttributeKind {
    Boolean = 1,
    Integer = 2,
    Float = 3,
    String = 4,
    IntegerList = 5,
    StringList = 6,
}

impl From<AttributeKind> for u8 {
    ghost from_gives = { λ kind number. number ≡ kind_number kind };

    fn from(kind: AttributeKind) -> u8 {
        kind as u8
    }
}

// The error is the number, which no kind has.
impl TryFrom<u8> for AttributeKind {
    type Error = u8;

    ghost try_from_gives = { IsKindOf };

    fn try_from(number: u8) -> Result<Self, u8> {
        match number {
            1 => Ok(AttributeKind::Boolean),
            2 => Ok(AttributeKind::Integer),
            3 => Ok(AttributeKind::Float),
            4 => Ok(AttributeKind::String),
            5 => Ok(AttributeKind::IntegerList),
            6 => Ok(AttributeKind::StringList),
            _ => Err(number),
        }
    }
}

// One attribute to be defined: a name, of which the first `length` bytes count, and a kind. The buffer with a length beside it is fixed
// memory: a list of definitions is lent, and a name has no heap to stand in.
#[derive(Clone, Copy)]
pub struct Definition {
    pub name: [u8; NAME_LIMIT],
    pub length: usize,
    pub kind: AttributeKind,
}

// A table that has every mark of a sound one: lent, as a part of a book's bytes. `new` tests the bytes; a caller who knows that they are
// sound needs no test.
#[derive(Clone, Copy)]
pub struct AttributeTable<'a> {
    pub bytes: &'a [u8],
    pub ghost sound: { sound_table bytes.now ≡ true },
}

impl<'a> AttributeTable<'a> {
    // The table that stands in these bytes, if they are sound.
    pub fn new(bytes: &'a [u8]) -> Option<AttributeTable<'a>>
        ensures { MatchOption result (sound_table bytes.now ≡ false) (λ table. table.bytes.now ≡ bytes.now) }
    {
        if is_sound(bytes) {
            Some(AttributeTable { bytes })
        } else {
            None
        }
    }

    // The number of attributes.
    #[tactic(auto, using(crate::specs::SoundLaws::sound_size, crate::specs::SoundLaws::sound_few))]
    pub fn len(self) -> usize
        ensures count { result ≡ count_of self.entry.bytes.now }
        ensures few { result ≤ attribute_limit }
    {
        len(self.bytes)
    }

    // The number of an attribute's kind.
    // A number and no Result: `kind_at` speaks of every record, and a record past the last attribute may hold any byte.
    #[tactic(auto, using(crate::specs::SoundLaws::sound_size))]
    pub fn by_id(self, id: AttributeId) -> u8
        requires { id.0 < attribute_limit }
        ensures { result ≡ kind_at self.entry.bytes.now id.0 }
    {
        by_id(self.bytes, id)
    }

    // The attribute of this name.
    #[tactic(auto, using(crate::specs::SoundLaws::sound_size, crate::specs::SoundLaws::sound_few))]
    pub fn by_name(self, name: &[u8]) -> Option<AttributeId>
        ensures found { result ≡ by_name self.entry.bytes.now name.now }
        ensures within { IfSome result (λ id. id.0 < attribute_limit) }
    {
        by_name(self.bytes, name)
    }
}

// What follows takes a slice of a table's length. The clauses of the public ones ask for no more of it, and in the private ones a struct
// for the length would be no plainer: the public ones and the two that write would have to make it at each call.

// Where the record of an attribute begins.
fn record_at(i: usize) -> usize
    requires { i < attribute_limit }
    ensures { result ≡ record_at i }
{
    1 + RECORD_SIZE * i
}

// The number of attributes.
pub fn len(table: &[u8]) -> usize
    requires { 0 < length table.now }
    ensures { result ≡ count_of table.now }
{
    usize::from(table[0])
}

// The number of an attribute's kind, as `AttributeTable::by_id` gives it.
pub fn by_id(table: &[u8], id: AttributeId) -> u8
    requires { (length table.now ≡ table_size) × (id.0 < attribute_limit) }
    ensures { result ≡ kind_at table.now id.0 }
{
    table[record_at(id.0)]
}

// The length of an attribute's name.
fn length_of(table: &[u8], i: usize) -> usize
    requires { (length table.now ≡ table_size) × (i < attribute_limit) }
    ensures { result ≡ length_at table.now i }
{
    usize::from(table[record_at(i) + 1])
}

// The name of an attribute, as a part of the table. A damaged length reaches no further than the table does.
fn name_of(table: &[u8], i: usize) -> &[u8]
    requires { (length table.now ≡ table_size) × (i < attribute_limit) }
    ensures { result.now ≡ name_at table.now i }
{
    let start = record_at(i) + 2;
    let end = table.len().min(start + length_of(table, i));
    &table[start..end]
}

// The first attribute below `count` that has this name.
fn first_named(table: &[u8], name: &[u8], count: usize) -> Option<AttributeId>
    requires { (length table.now ≡ table_size) × (count ≤ attribute_limit) }
    ensures { result ≡ first_below (named table.now name.now) count }
{
    for i in 0..count {
        if bytes_equal::same_bytes(name_of(table, i), name) {
            return Some(AttributeId(i));
        }
    }
    None
}

// The attribute of this name.
pub fn by_name(table: &[u8], name: &[u8]) -> Option<AttributeId>
    requires { (length table.now ≡ table_size) × (count_of table.now ≤ attribute_limit) }
    ensures { result ≡ by_name table.now name.now }
{
    first_named(table, name, len(table))
}

// Writes a name to the places from `at` on, and zeros after it.
fn write_name(table: &mut [u8], at: usize, name: &[u8])
    requires { (at + name_limit ≤ length table.old) × (length name.now ≤ name_limit) }
    ensures { table.new ≡ sets table.old at (padded name.now) }
{
    let end = at + name.len();
    table[at..end].copy_from_slice(name);
    table[end..at + NAME_LIMIT].fill(0);
}

// Is the attribute sound, and its name new among those before it?
fn attribute_sound(table: &[u8], i: usize) -> bool
    requires { (length table.now ≡ table_size) × (i < attribute_limit) }
    ensures { result ≡ sound_attribute table.now i }
{
    let kind = by_id(table, AttributeId(i));
    AttributeKind::try_from(kind).is_ok()
        && (1..=NAME_LIMIT).contains(&length_of(table, i))
        && first_named(table, name_of(table, i), i).is_none()
}

// Has the table every mark of a sound one?
pub fn is_sound(table: &[u8]) -> bool
    ensures { result ≡ sound_table table.now }
{
    table.len() == TABLE_SIZE
        && len(table) <= ATTRIBUTE_LIMIT
        && (0..len(table)).all(|i| attribute_sound(table, i))
}

// Counts one attribute more and writes its record.
fn write_record(table: &mut [u8], kind: AttributeKind, name: &[u8])
    requires { (length table.old ≡ table_size) × (count_of table.old < attribute_limit) × (length name.now ≤ name_limit) }
    ensures { table.new ≡ added table.old (kind_number kind) name.now }
{
    let at = record_at(len(table));
    table[0] += 1;
    table[at] = u8::from(kind);
    table[at + 1] = name.len() as u8;
    write_name(table, at + 2, name);
}

// Defines one attribute more, or refuses and changes nothing.
#[tactic(auto, using(crate::proofs::NameLaws::full_refused))]
pub fn define(table: &mut [u8], definition: Definition) -> Result<(), Refusal>
    requires { length table.old ≡ table_size }
    ensures { outcome (number (answered result)) table.new ≡ defined_of table.old definition }
{
    let length = definition.length;
    if !(1..=NAME_LIMIT).contains(&length) {
        return Err(Refusal::LimitPassed);
    }
    if ATTRIBUTE_LIMIT <= len(table) {
        return Err(Refusal::LimitPassed);
    }
    let name = &definition.name[..length];
    if by_name(table, name).is_some() {
        return Err(Refusal::NameTwice);
    }
    write_record(table, definition.kind, name);
    Ok(())
}
