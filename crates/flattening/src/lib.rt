// Flattening: the entries of a sheet become codes in postfix, with Not pushed to the predicates and nested equal operators joined.
#![tactic(auto)]

ghost use Rattle.std.specs.Prelude.{length, ◌≡◌, ◌<◌, ◌≤◌};
ghost use Rattle.evaluation.specs.Kleene.{operator_under};
ghost use Rattle.flattening.specs.Codes.{predicate_code, operator_code};
ghost use Rattle.flattening.specs.Writing.{Ready, Flattens, Collects, Optimizes};

use evaluation::Operator;
use sheets::{ENTRY_LIMIT, Shape, Sheet};

// How far a writing has come: the next entry, the next place of the output, and how many flattened rules it wrote side by side.
#[derive(Clone, Copy)]
pub struct Written {
    pub next: usize,
    pub at: usize,
    pub count: usize,
}

// A flattened rule: its codes, and how many there are. The buffer with a count beside it is fixed memory: no rule is longer than a sheet.
// A code stays a number, here and below: `codes_read` reads them back, and a rule goes on as codes.
#[derive(Clone, Copy)]
pub struct Optimized {
    pub codes: [u16; ENTRY_LIMIT],
    pub count: usize,
}

// What an operator becomes under an odd number of Nots or an even one.
fn under(operator: Operator, negate: bool) -> Operator
    ensures { result ≡ operator_under negate operator }
{
    match (operator, negate) {
        (Operator::And, false) | (Operator::Or, true) => Operator::And,
        (Operator::Or, false) | (Operator::And, true) => Operator::Or,
    }
}

// The code of the predicate in entry i.
fn predicate_code(negate: bool, i: usize) -> u16
    requires { i < 128 }
    ensures { result ≡ predicate_code negate i }
{
    2 * (i as u16) + u16::from(negate)
}

// The code of an operator over so many children.
fn operator_code(operator: Operator, count: usize) -> u16
    requires { count ≤ 128 }
    ensures { result ≡ operator_code operator count }
{
    let code = 256 + 2 * (count as u16);
    match operator {
        Operator::And => code,
        Operator::Or => code + 1,
    }
}

// The tree at entry i, flattened: Not turns what is under it, an operator stands after what it collects. The output is lent, and its next
// place stands beside it: a call gives it back with the next entry, as `Written`.
#[cycle(collect_flatten)]
fn flatten(sheet: &Sheet, i: usize, negate: bool, out: &mut [u16], at: usize) -> Written
    requires { Ready sheet.now.first sheet.now.numbers.now i at (length out.old) }
    ensures { Flattens sheet.now.first sheet.now.numbers.now i negate at out.old out.new result }
{
    match sheet.shape(i) {
        Shape::Negates => flatten(sheet, i + 1, !negate, out, at),
        Shape::Joins(operator) => {
            let own = under(operator, negate);
            let children = collect(sheet, i, negate, own, out, at);
            out[children.at] = operator_code(own, children.count);
            Written {
                next: children.next,
                at: children.at + 1,
                count: 1,
            }
        }
        Shape::Stands => {
            out[at] = predicate_code(negate, i);
            Written {
                next: i + 1,
                at: at + 1,
                count: 1,
            }
        }
    }
}

// What the tree at entry i brings to an operator above it: its children where it has that operator, else itself.
#[cycle(collect_flatten)]
fn collect(
    sheet: &Sheet,
    i: usize,
    negate: bool,
    parent: Operator,
    out: &mut [u16],
    at: usize,
) -> Written
    requires { Ready sheet.now.first sheet.now.numbers.now i at (length out.old) }
    ensures { Collects parent sheet.now.first sheet.now.numbers.now i negate at out.old out.new result }
{
    match sheet.shape(i) {
        Shape::Negates => collect(sheet, i + 1, !negate, parent, out, at),
        Shape::Joins(operator) if under(operator, negate) == parent => {
            let left = collect(sheet, i + 1, negate, parent, out, at);
            let right = collect(sheet, left.next, negate, parent, out, left.at);
            Written {
                count: left.count + right.count,
                ..right
            }
        }
        _ => flatten(sheet, i, negate, out, at),
    }
}

// The whole sheet, flattened.
pub fn optimize(sheet: Sheet) -> Optimized
    requires { Ready sheet.first sheet.numbers.now 0 0 128 }
    ensures { Optimizes sheet.entry.first sheet.entry.numbers.now result }
{
    let mut codes = [0; ENTRY_LIMIT];
    let written = flatten(&sheet, 0, false, &mut codes, 0);
    Optimized {
        codes,
        count: written.at,
    }
}
