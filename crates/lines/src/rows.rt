// The words of a line read as a row of numbers.
ghost use Rattle.std.specs.Prelude.{◌≡◌, length};
ghost use Rattle.std.proofs.lemmas.List.Edits.{sets};
ghost use Rattle.lines.specs.Words.{words_from};
ghost use Rattle.lines.specs.Rows.{leading, row_from};

use crate::numbers::read_i64;

// Reads the words from `at` on as numbers, into `out` from its start. Answers how many there are, or nothing where a word is no number or
// has no place. What follows a word that is no number is not read.
pub fn read_row(line: &[u8], at: usize, out: &mut [i64]) -> Option<usize>
    ensures { (result ≡ row_from (length out.old) 0 (words_from line.now at))
        × (out.new ≡ sets out.old 0 (leading (words_from line.now at))) }
{
    // The count is the answer too. Tried with `get_mut`: the proof does not close, as it tells only the length that a slice ends with.
    let mut count = 0;
    let Some(rest) = line.get(at..) else {
        return Some(count);
    };
    for word in rest.split(|byte| *byte == b' ') {
        if out.len() <= count {
            return None;
        }
        out[count] = read_i64(word)?;
        count += 1;
    }
    Some(count)
}
