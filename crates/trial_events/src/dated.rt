// Dated readings: at their greatest age and past it, ahead of the present, at the ends of u64; and refused whatever their age.
use crate::Trial;
use filling::{Dates, Reading};
use std::io;

impl<'a, P: Print> Trial<'a, P> {
    // Hands in a dated integer, and writes the name, the answer and the event after.
    fn given_dated(
        &mut self,
        name: &[u8],
        number: i64,
        stamp: u64,
        present: u64,
        greatest_age: u64,
    ) -> io::Result<()> {
        let filled = filling::fill_dated(
            self.table,
            self.event,
            name,
            Reading::Integer(number),
            &[],
            Dates {
                stamp,
                present,
                greatest_age,
            },
        );
        self.go_on(name, filled)
    }

    fn near(&mut self) -> io::Result<()> {
        self.given_dated(b"wind", 1, 100, 100, 0)?;
        self.given_dated(b"wind", 2, 100, 130, 30)?;
        self.given_dated(b"wind", 3, 100, 131, 30)?;
        self.given_dated(b"wind", 4, 100, 130, 31)?;
        self.given_dated(b"wind", 5, 100, 99, 30)
    }

    fn far(&mut self) -> io::Result<()> {
        self.given_dated(b"wind", 6, 0, u64::MAX, u64::MAX)?;
        self.given_dated(b"wind", 7, 0, u64::MAX, u64::MAX - 1)?;
        self.given_dated(b"wind", 8, u64::MAX, u64::MAX, 0)?;
        self.given_dated(b"wind", 9, u64::MAX, 0, u64::MAX)
    }

    fn refused(&mut self) -> io::Result<()> {
        self.given_dated(b"wand", 1, 100, 131, 30)?;
        self.given_dated(b"rain", 1, 100, 131, 30)
    }

    pub fn dated(&mut self) -> io::Result<()> {
        self.near()?;
        self.far()?;
        self.refused()
    }
}
