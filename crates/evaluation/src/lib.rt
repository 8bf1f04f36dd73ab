// Three answers, Kleene's two tables and their combining step, and the result bytes of a search. Assumes nothing.
#![tactic(auto)]

ghost use Rattle.std.specs.Prelude.{◌≡◌, ◌<◌, length, get_or, set};
ghost use Rattle.evaluation.specs.Kleene.{truth_from, not_of, join_of, unit_of, decider_of};
ghost use Rattle.evaluation.specs.Table.{table_of, at_table};
ghost use Rattle.evaluation.specs.Results.{answer_bits, result_byte, evaluated, outcome_of};

#[derive(Clone, Copy, Debug, PartialEq, Eq)]
pub enum Truth {
    False,
    Undefined,
    True,
}

impl From<bool> for Truth {
    ghost from_gives = { λ b truth. truth ≡ truth_from b };

    fn from(answer: bool) -> Truth {
        if answer { Truth::True } else { Truth::False }
    }
}

#[derive(Clone, Copy, Debug, PartialEq, Eq)]
pub enum Operator {
    And,
    Or,
}

// Rows and columns stand in the order False, Undefined, True. The scope's form: tables of three rows of three, that go by value.
const AND: [[Truth; 3]; 3] = [
    [Truth::False, Truth::False, Truth::False],
    [Truth::False, Truth::Undefined, Truth::Undefined],
    [Truth::False, Truth::Undefined, Truth::True],
];

const OR: [[Truth; 3]; 3] = [
    [Truth::False, Truth::Undefined, Truth::True],
    [Truth::Undefined, Truth::Undefined, Truth::True],
    [Truth::True, Truth::True, Truth::True],
];

pub fn table_of(operator: Operator) -> [[Truth; 3]; 3]
    ensures { result ≡ table_of operator }
{
    match operator {
        Operator::And => AND,
        Operator::Or => OR,
    }
}

pub fn combine(table: [[Truth; 3]; 3], a: Truth, b: Truth) -> Truth
    ensures { result ≡ at_table table a b }
{
    table[a as usize][b as usize]
}

pub fn join(operator: Operator, a: Truth, b: Truth) -> Truth
    ensures { result ≡ join_of operator a b }
{
    combine(table_of(operator), a, b)
}

// The value of no children.
pub fn unit_of(operator: Operator) -> Truth
    ensures { result ≡ unit_of operator }
{
    match operator {
        Operator::And => Truth::True,
        Operator::Or => Truth::False,
    }
}

// The value of a child that settles the whole.
pub fn decider_of(operator: Operator) -> Truth
    ensures { result ≡ decider_of operator }
{
    match operator {
        Operator::And => Truth::False,
        Operator::Or => Truth::True,
    }
}

// A function by value, as the scope has it, and no `impl Not`.
pub fn not(a: Truth) -> Truth
    ensures { result ≡ not_of a }
{
    match a {
        Truth::False => Truth::True,
        Truth::Undefined => Truth::Undefined,
        Truth::True => Truth::False,
    }
}

// The bits of a result byte, in the scope's form: three answers in two bits and a mark. A byte of 0 is a part never valued.
const FAILED: u8 = 1;

const SUCCESS: u8 = 2;

const EVALUATED: u8 = 4;

fn answer_bits(value: Truth) -> u8
    ensures { result ≡ answer_bits value }
{
    match value {
        Truth::False => FAILED,
        Truth::Undefined => 0,
        Truth::True => SUCCESS,
    }
}

// The results and the part stay parameters, here and below: a struct would have to be two, since this changes what the others read.
pub fn set_result(results: &mut [u8], part: usize, value: Truth)
    requires { part < length results.old }
    ensures { results.new ≡ set results.old part (result_byte value) }
{
    results[part] = answer_bits(value) | EVALUATED;
}

pub fn is_evaluated(results: &[u8], part: usize) -> bool
    requires { part < length results.now }
    ensures { result ≡ evaluated (get_or results.now part 0) }
{
    results[part] & EVALUATED != 0
}

// What a search knows of a part: a part never valued has no answer.
pub fn get_result(results: &[u8], part: usize) -> Option<Truth>
    requires { part < length results.now }
    ensures { result ≡ outcome_of (get_or results.now part 0) }
{
    let byte = results[part];
    if byte & EVALUATED == 0 {
        return None;
    }
    if byte & FAILED != 0 {
        return Some(Truth::False);
    }
    if byte & SUCCESS != 0 {
        return Some(Truth::True);
    }
    Some(Truth::Undefined)
}
