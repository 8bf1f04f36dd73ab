// Events filled, refused and dated at their limits. What this writes is held to what tools/event_trials.py works out.
#![tactic(auto)]

ghost use Rattle.std.specs.Prelude.{◌≤◌, length};

mod damaged;
mod dated;
mod filled;
mod showing;

use attributes::{AttributeKind, AttributeTable, Definition, NAME_LIMIT, TABLE_SIZE};
use events::Event;
use filling::Filled;
use std::io;

// Defines one attribute of the trials.
fn define(
    rt: &impl Print,
    table: &mut [u8; TABLE_SIZE],
    name: &[u8],
    kind: AttributeKind,
) -> io::Result<()>
    requires { length name.now ≤ NAME_LIMIT }
{
    let length = name.len();
    let mut places = [b' '; NAME_LIMIT];
    places[..length].copy_from_slice(name);
    let definition = Definition {
        name: places,
        length,
        kind,
    };
    print!(rt; "{}", error::number(attributes::define(table, definition)))
}

// The six attributes of the trials.
fn trial_table(rt: &impl Print, table: &mut [u8; TABLE_SIZE]) -> io::Result<()> {
    define(rt, table, b"humidity", AttributeKind::Float)?;
    define(rt, table, b"rain", AttributeKind::Boolean)?;
    define(rt, table, b"wind", AttributeKind::Integer)?;
    define(rt, table, b"site", AttributeKind::String)?;
    define(rt, table, b"flags", AttributeKind::IntegerList)?;
    define(rt, table, b"sky", AttributeKind::StringList)?;
    println!(rt)
}

// What the trials go through with: where they write, the table, and the event as it stands.
#[derive(Drop)]
pub struct Trial<'a, P> {
    pub rt: &'a P,
    pub table: AttributeTable<'a>,
    pub event: Event,
}

impl<'a, P: Print> Trial<'a, P> {
    fn run(&mut self) -> io::Result<()> {
        println!(self.rt; "{}", showing::Shown(&self.event))?;
        self.filled()?;
        self.dated()?;
        self.damaged()
    }

    // Goes on with the event after a reading, and writes the name, the answer and the event.
    fn go_on(&mut self, name: &[u8], filled: Filled) -> io::Result<()> {
        self.event = filled.event;
        showing::answered(self.rt, name, &filled)
    }
}

fn main(rt: HostRuntime) -> io::Result<()> {
    let mut bytes = [0; TABLE_SIZE];
    trial_table(&rt, &mut bytes)?;
    match AttributeTable::new(&bytes) {
        Some(table) => {
            let event = events::fresh(6);
            Trial {
                rt: &rt,
                table,
                event,
            }
            .run()
        }
        None => println!(rt; "damaged"),
    }
}
