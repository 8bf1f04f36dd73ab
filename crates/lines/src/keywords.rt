// The words that the desk knows.
ghost use Rattle.std.specs.Prelude.{◌≡◌, map, slice_get};
ghost use Rattle.lines.specs.Keywords.{place_among, command_of, kind_of, truth_of};

use bytes_equal::same_bytes;

// What the first word of a line asks for.
#[derive(Debug, Clone, Copy, PartialEq, Eq)]
pub enum Command {
    Open,
    Insert,
    Delete,
    Room,
    Event,
    Set,
    Dated,
    Search,
    Repeat,
}

// What kind of value follows.
#[derive(Debug, Clone, Copy, PartialEq, Eq)]
pub enum Kind {
    Undefined,
    Boolean,
    Integer,
    Float,
    String,
    Integers,
    Strings,
}

// The words, each with what it stands for.
const COMMANDS: [(&[u8], Command); 9] = [
    (b"open", Command::Open),
    (b"insert", Command::Insert),
    (b"delete", Command::Delete),
    (b"room", Command::Room),
    (b"event", Command::Event),
    (b"set", Command::Set),
    (b"dated", Command::Dated),
    (b"search", Command::Search),
    (b"repeat", Command::Repeat),
];

const KINDS: [(&[u8], Kind); 7] = [
    (b"boolean", Kind::Boolean),
    (b"integer", Kind::Integer),
    (b"float", Kind::Float),
    (b"string", Kind::String),
    (b"integers", Kind::Integers),
    (b"strings", Kind::Strings),
    (b"undefined", Kind::Undefined),
];

const TRUTHS: [(&[u8], bool); 2] = [(b"true", true), (b"false", false)];

// What stands beside the word in a table.
fn look_up<T: Copy>(table: &[(&[u8], T)], word: &[u8]) -> Option<T>
    ensures { result ≡ slice_get (map (λ row. row.1) table.entry.now) (place_among word.now (map (λ row. row.0.now) table.entry.now)) }
{
    table
        .iter()
        .find(|row| same_bytes(word, row.0))
        .map(|row| row.1)
}

pub fn command_of(word: &[u8]) -> Option<Command>
    ensures { result ≡ command_of word.now }
{
    look_up(&COMMANDS, word)
}

pub fn kind_of(word: &[u8]) -> Option<Kind>
    ensures { result ≡ kind_of word.now }
{
    look_up(&KINDS, word)
}

pub fn truth_of(word: &[u8]) -> Option<bool>
    ensures { result ≡ truth_of word.now }
{
    look_up(&TRUTHS, word)
}
