// Lists of 0, 1, 31 and 32 elements: made to ascend, and read as sets. Empty lists on either side are cases of their own.
use crate::writing::yes_or_no;
use std::io;

const GIVEN: [i64; 32] = [
    7,
    7,
    -3,
    9223372036854775807,
    0,
    65535,
    12,
    -9223372036854775808,
    5,
    5,
    5,
    31,
    30,
    29,
    28,
    27,
    26,
    25,
    24,
    23,
    22,
    21,
    20,
    19,
    18,
    17,
    16,
    15,
    14,
    13,
    -1,
    7,
];

const ASCENDING: [i64; 32] = [
    -9223372036854775808,
    -100,
    -3,
    -2,
    -1,
    0,
    1,
    2,
    3,
    4,
    5,
    6,
    7,
    8,
    9,
    10,
    11,
    12,
    13,
    14,
    15,
    16,
    17,
    18,
    19,
    20,
    21,
    22,
    23,
    24,
    25,
    9223372036854775807,
];

const OTHERS: [i64; 32] = [
    -99, -98, -97, -96, -95, -94, 26, 27, 28, 29, 30, 31, 32, 33, 34, 35, 36, 37, 38, 39, 40, 41,
    42, 43, 44, 45, 46, 47, 48, 49, 50, 51,
];

// A given list as it is kept: its length, and all places of its row.
fn settled(rt: &impl Print, given: &[i64]) -> io::Result<()> {
    if given.len() <= lists::LIST_LIMIT {
        let row = lists::settle(given);
        print!(rt; "kept {} of:", row.length)?;
        for place in row.places {
            print!(rt; " {place}")?;
        }
        println!(rt)?;
    }
    Ok(())
}

// Two lists as sets: whether they share an element, and whether the right one has all of the left.
fn sets(rt: &impl Print, left: &[i64], right: &[i64]) -> io::Result<()> {
    print!(rt; "{} and {}", left.len(), right.len())?;
    if lists::ascending(left) && lists::ascending(right) {
        let shared = yes_or_no(lists::one_of(left, right));
        let all = yes_or_no(lists::all_of(left, right));
        return println!(rt; " {shared} {all}");
    }
    println!(rt; " do not ascend")
}

fn found(rt: &impl Print, list: &[i64], x: i64) -> io::Result<()> {
    if lists::ascending(list) {
        println!(rt; "{x} {}", yes_or_no(lists::member(list, x)))?;
    }
    Ok(())
}

// A list beside the empty one, itself, others and a list that does not ascend.
fn beside(rt: &impl Print, list: &[i64]) -> io::Result<()> {
    sets(rt, list, &[])?;
    sets(rt, &[], list)?;
    sets(rt, list, list)?;
    sets(rt, list, &ASCENDING)?;
    sets(rt, &ASCENDING, list)?;
    sets(rt, list, &OTHERS)?;
    sets(rt, &OTHERS, list)?;
    sets(rt, list, &GIVEN)
}

pub fn run(rt: &impl Print) -> io::Result<()> {
    settled(rt, &[])?;
    settled(rt, &GIVEN[..1])?;
    settled(rt, &GIVEN[..31])?;
    settled(rt, &GIVEN)?;
    settled(rt, &ASCENDING)?;
    beside(rt, &[])?;
    beside(rt, &ASCENDING[..1])?;
    beside(rt, &ASCENDING[1..])?;
    beside(rt, &ASCENDING)?;
    beside(rt, &[5, 26])?;
    found(rt, &[], 0)?;
    found(rt, &ASCENDING, -9223372036854775808)?;
    found(rt, &ASCENDING, -101)?;
    found(rt, &ASCENDING, -99)?;
    found(rt, &ASCENDING, 25)?;
    found(rt, &ASCENDING, 26)?;
    found(rt, &ASCENDING, 9223372036854775807)?;
    found(rt, &ASCENDING[..31], 9223372036854775807)
}
