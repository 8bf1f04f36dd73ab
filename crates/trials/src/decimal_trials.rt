// Every pair of numbers at the ends of i64 and near zero, with scales 0, 2, 18, 19, 27 and 28: their order, and each one's normal form.
use crate::writing::sign;
use decimals::{Decimal, SCALE_LIMIT};
use std::io;

const NUMBERS: [i64; 11] = [
    -9223372036854775808,
    -9223372036854775807,
    -10,
    -1,
    0,
    1,
    10,
    85,
    8500,
    9223372036854775800,
    9223372036854775807,
];

const SCALES: [u8; 6] = [0, 2, 18, 19, 27, 28];

// How a decimal stands to each of them.
fn row(rt: &impl Print, left: Decimal) -> io::Result<()> {
    for scale in SCALES {
        for number in NUMBERS {
            if left.scale <= SCALE_LIMIT && scale <= SCALE_LIMIT {
                let right = Decimal { number, scale };
                print!(rt; "{}", sign(decimals::compare(left, right)))?;
            }
        }
    }
    Ok(())
}

pub fn run(rt: &impl Print) -> io::Result<()> {
    for scale in SCALES {
        for number in NUMBERS {
            let given = Decimal { number, scale };
            let normal = decimals::normal(given);
            print!(rt; "{number} {scale} is {} {} ", normal.number, normal.scale)?;
            row(rt, given)?;
            println!(rt)?;
        }
    }
    Ok(())
}
