// What an event holds, written.
use events::{AttributeValue, Event};
use filling::Filled;
use std::{fmt, io};

// The values of the six attributes of the trials.
#[derive(Clone, Copy)]
pub struct Shown<'a>(pub &'a Event);

fn elements<W: fmt::Write>(f: &mut fmt::Formatter<W>, kind: &str, list: &[i64]) -> fmt::Result {
    f.write_str(kind)?;
    for x in list {
        write!(f, " {x}")?;
    }
    Ok(())
}

impl<'a> fmt::Display for Shown<'a> {
    fn fmt<W: fmt::Write>(&self, f: &mut fmt::Formatter<W>) -> fmt::Result {
        for i in 0..6 {
            match self.0.value(i) {
                AttributeValue::Undefined => f.write_str(" undefined")?,
                AttributeValue::Boolean(truth) => f.write_str(if truth { " yes" } else { " no" })?,
                AttributeValue::Integer(number) => write!(f, " integer {number}")?,
                AttributeValue::Float(decimal) => {
                    write!(f, " float {} {}", decimal.number, decimal.scale)?
                }
                AttributeValue::String(word) => write!(f, " word {}", word.0)?,
                AttributeValue::IntegerList => elements(f, " integers", self.0.list(i))?,
                AttributeValue::StringList => elements(f, " words", self.0.list(i))?,
            }
            f.write_str(";")?;
        }
        Ok(())
    }
}

// The name that a reading was handed in for, the answer's number and the event after.
pub fn answered(rt: &impl Print, name: &[u8], filled: &Filled) -> io::Result<()> {
    rt.write_all(name)?;
    println!(rt; " {}:{}", filled.number(), Shown(&filled.event))
}
