// Events that do not suit the table, each with one fault; and faults that are not judged.
use crate::Trial;
use events::Event;
use filling::Reading;
use std::io;

// What stands at the place of an attribute, whatever the table says of it: the attribute's number, a kind's, a number, a scale and a
// length.
type Place = (usize, u8, i64, u8, usize);

const SCALARS: [Place; 8] = [
    (0, 3, 5, 28, 0),
    (0, 3, 5, 29, 0),
    (1, 1, 1, 0, 0),
    (1, 1, 2, 0, 0),
    (1, 1, -1, 0, 0),
    (3, 4, 65535, 0, 0),
    (3, 4, 65536, 0, 0),
    (3, 4, -1, 0, 0),
];

const KINDS: [Place; 5] = [
    (2, 1, 0, 0, 0),
    (2, 2, 5, 255, 1000),
    (2, 7, 0, 0, 0),
    (2, 0, 5, 255, 1000),
    (6, 9, 5, 255, 1000),
];

// The flags of the event given are the numbers from 1 to 32.
const LENGTHS: [Place; 5] = [
    (4, 5, 0, 0, 0),
    (4, 5, 0, 0, 32),
    (4, 5, 0, 0, 33),
    (4, 5, 0, 0, usize::MAX),
    (4, 0, 0, 0, 33),
];

// Elements of the words, each with its place in their row. The sky of the event given is the words from 0 to 31.
const ELEMENTS: [(usize, i64); 7] = [
    (0, 0),
    (0, 1),
    (0, -1),
    (1, 0),
    (2, 65535),
    (2, 65536),
    (3, 65536),
];

impl<'a, P: Print> Trial<'a, P> {
    // Whether the event suits, and the answers to a reading that is right and to one of no attribute.
    fn judged(&self, event: &Event) -> io::Result<()> {
        let suits = if events::suits(self.table, event) {
            "yes"
        } else {
            "no"
        };
        let right = filling::fill(self.table, *event, b"wind", Reading::Integer(7), &[]);
        let wrong = filling::fill(self.table, *event, b"wand", Reading::Integer(7), &[]);
        println!(self.rt; " {suits} {} {}", right.number(), wrong.number())
    }

    fn counts(&self) -> io::Result<()> {
        for count in [5, 7, usize::MAX] {
            self.judged(&Event {
                count,
                ..self.event
            })?;
        }
        Ok(())
    }

    fn places(&self, places: &[Place]) -> io::Result<()> {
        for (i, kind, number, scale, length) in places {
            if *i < attributes::ATTRIBUTE_LIMIT {
                let mut next = self.event;
                next.kinds[*i] = *kind;
                next.numbers[*i] = *number;
                next.scales[*i] = *scale;
                next.lengths[*i] = *length;
                self.judged(&next)?;
            }
        }
        Ok(())
    }

    fn elements(&self) -> io::Result<()> {
        for (k, x) in ELEMENTS {
            if k < lists::LIST_LIMIT {
                let mut next = self.event;
                next.kinds[5] = 6;
                next.lengths[5] = 3;
                next.lists[lists::LIST_LIMIT * 5 + k] = x;
                self.judged(&next)?;
            }
        }
        Ok(())
    }

    pub fn damaged(&self) -> io::Result<()> {
        self.judged(&self.event)?;
        self.counts()?;
        self.places(&SCALARS)?;
        self.places(&KINDS)?;
        self.places(&LENGTHS)?;
        self.elements()
    }
}
