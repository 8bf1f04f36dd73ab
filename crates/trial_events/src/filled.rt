// Readings of every kind for every attribute, at their limits and past them; unknown names; lists that are not in order.
use crate::Trial;
use events::StringId;
use filling::Reading;
use std::io;

// Thirty-three elements, of which the first 32 are as many as a list may have.
const LONG: [i64; 33] = [
    32, 31, 30, 29, 28, 27, 26, 25, 24, 23, 22, 21, 20, 19, 18, 17, 16, 15, 14, 13, 12, 11, 10, 9,
    8, 7, 6, 5, 4, 3, 2, 1, 0,
];

// A reading of each kind.
const READINGS: [Reading; 7] = [
    Reading::Undefined,
    Reading::Boolean(true),
    Reading::Integer(i64::MIN),
    Reading::Float(i64::MAX, 28),
    Reading::String(StringId(65535)),
    Reading::IntegerList,
    Reading::StringList,
];

impl<'a, P: Print> Trial<'a, P> {
    // Hands in a reading, and writes the name, the answer and the event after.
    fn given(&mut self, name: &[u8], reading: Reading, list: &[i64]) -> io::Result<()> {
        let filled = filling::fill(self.table, self.event, name, reading, list);
        self.go_on(name, filled)
    }

    // Readings of every kind for one attribute.
    fn every_kind(&mut self, name: &[u8]) -> io::Result<()> {
        for reading in READINGS {
            self.given(name, reading, &[9, 3, 9, 0, 3])?;
        }
        Ok(())
    }

    fn kinds(&mut self) -> io::Result<()> {
        self.every_kind(b"humidity")?;
        self.every_kind(b"rain")?;
        self.every_kind(b"wind")?;
        self.every_kind(b"site")?;
        self.every_kind(b"flags")?;
        self.every_kind(b"sky")
    }

    fn scales(&mut self) -> io::Result<()> {
        self.given(b"humidity", Reading::Float(85, 0), &[])?;
        self.given(b"humidity", Reading::Float(-1, 28), &[])?;
        self.given(b"humidity", Reading::Float(1, 29), &[])?;
        self.given(b"humidity", Reading::Float(1, -1), &[])?;
        self.given(b"rain", Reading::Float(1, 29), &[])
    }

    fn words(&mut self) -> io::Result<()> {
        self.given(b"site", Reading::String(StringId(0)), &[])?;
        let past = Reading::String(StringId(65536));
        self.given(b"site", past, &[])?;
        let negative = Reading::String(StringId(-1));
        self.given(b"site", negative, &[])?;
        self.given(b"sky", Reading::StringList, &[65535, 0])?;
        self.given(b"sky", Reading::StringList, &[65536, 0])?;
        self.given(b"sky", Reading::StringList, &[1, -1])
    }

    fn lengths(&mut self) -> io::Result<()> {
        self.given(b"flags", Reading::IntegerList, &[])?;
        self.given(b"flags", Reading::IntegerList, &LONG[..32])?;
        self.given(b"flags", Reading::IntegerList, &LONG)?;
        self.given(b"sky", Reading::StringList, &LONG[1..])?;
        self.given(b"sky", Reading::StringList, &[7; 33])?;
        self.given(b"wind", Reading::Integer(4), &LONG)
    }

    fn names(&mut self) -> io::Result<()> {
        self.given(b"", Reading::Integer(1), &[])?;
        let long = b"windwindwindwindwindwindwindwindw";
        self.given(long, Reading::Integer(1), &[])?;
        self.given(b"win", Reading::Float(1, 29), &[])?;
        self.given(b"wind ", Reading::Undefined, &[])
    }

    pub fn filled(&mut self) -> io::Result<()> {
        self.kinds()?;
        self.scales()?;
        self.words()?;
        self.lengths()?;
        self.names()
    }
}
