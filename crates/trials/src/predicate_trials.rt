// Every kind of predicate with every tag on every kind of attribute: whether the rule sheet has such a predicate (else 1), whether it suits
// (else 6), and what it says of an undefined value and of four others.
ghost use Rattle.std.specs.Prelude.{◌≤◌, ◌<◌};
ghost use Rattle.decimals.specs.Decimals.{scale_limit};
ghost use Rattle.predicates.specs.Meaning.{amount_in};

use crate::writing::letter;
use attributes::AttributeKind;
use decimals::Decimal;
use error::Refusal;
use events::{AttributeValue, StringId};
use predicates::{
    ComparisonOperator, EqualityOperator, ListOperator, NullOperator, PredicateKind, SetOperator,
};
use std::io;

const KINDS: [PredicateKind; 18] = [
    PredicateKind::Variable,
    PredicateKind::NegatedVariable,
    PredicateKind::Set(SetOperator::In),
    PredicateKind::Set(SetOperator::NotIn),
    PredicateKind::Comparison(ComparisonOperator::LessThan),
    PredicateKind::Comparison(ComparisonOperator::LessThanEqual),
    PredicateKind::Comparison(ComparisonOperator::GreaterThanEqual),
    PredicateKind::Comparison(ComparisonOperator::GreaterThan),
    PredicateKind::Equality(EqualityOperator::Equal),
    PredicateKind::Equality(EqualityOperator::NotEqual),
    PredicateKind::List(ListOperator::OneOf),
    PredicateKind::List(ListOperator::NoneOf),
    PredicateKind::List(ListOperator::AllOf),
    PredicateKind::List(ListOperator::NotAllOf),
    PredicateKind::Null(NullOperator::IsNull),
    PredicateKind::Null(NullOperator::IsNotNull),
    PredicateKind::Null(NullOperator::IsEmpty),
    PredicateKind::Null(NullOperator::IsNotEmpty),
];

const ATTRIBUTES: [AttributeKind; 6] = [
    AttributeKind::Boolean,
    AttributeKind::Integer,
    AttributeKind::Float,
    AttributeKind::String,
    AttributeKind::IntegerList,
    AttributeKind::StringList,
];

// The numbers of the literals by their tags: the integer 5, the decimal 8.5 and the word 7. No table of literals: `literal_of` makes them.
const NUMBERS: [i64; 6] = [0, 5, 85, 7, 0, 0];

const SCALE: u8 = 1;

// The literals' list: 2 and 5.
const ELEMENTS: [u8; 16] = [2, 0, 0, 0, 0, 0, 0, 0, 5, 0, 0, 0, 0, 0, 0, 0];

// The values by their numbers, a row for each kind: no table of values, since the attribute's kind makes one. The decimals' scale is 3.
const INTEGERS: [i64; 5] = [0, 4, 5, 6, 7];

const DECIMALS: [i64; 5] = [0, 8450, 8500, 8550, 8600];

const WORDS: [i64; 5] = [0, 5, 6, 7, 8];

// The lists that the predicates are tried with, each beside the value of its number, as `evaluate` takes a list beside the value.
const LISTS: [&[i64]; 5] = [&[], &[], &[2, 5], &[5, 9], &[3]];

// Which tags the rule sheet allows for a kind. A tag stays a number: `suits` and `literal_of` of predicates take it so.
fn allows(kind: PredicateKind, tag: u8) -> bool {
    match kind {
        PredicateKind::Set(_) | PredicateKind::List(_) => matches!(tag, 4 | 5),
        PredicateKind::Comparison(_) => matches!(tag, 1 | 2),
        PredicateKind::Equality(_) => matches!(tag, 1..=3),
        PredicateKind::Variable | PredicateKind::NegatedVariable | PredicateKind::Null(_) => {
            tag == 0
        }
    }
}

// A value of an attribute: number 0 is undefined, the others stand around the literal's.
fn value(attribute: AttributeKind, i: usize) -> AttributeValue
    requires { i < 5 }
    ensures { (amount_in result).scale ≤ scale_limit }
{
    if i == 0 {
        return AttributeValue::Undefined;
    }
    match attribute {
        AttributeKind::Boolean => AttributeValue::Boolean(i % 2 == 0),
        AttributeKind::Integer => AttributeValue::Integer(INTEGERS[i]),
        AttributeKind::Float => AttributeValue::Float(Decimal {
            number: DECIMALS[i],
            scale: 3,
        }),
        AttributeKind::String => AttributeValue::String(StringId(WORDS[i])),
        AttributeKind::IntegerList => AttributeValue::IntegerList,
        AttributeKind::StringList => AttributeValue::StringList,
    }
}

// What a predicate says of a value, or of a list. Kind and tag stay two here and below: a struct would be made of the variables of two
// loops only to be taken apart where each is printed.
fn says(
    rt: &impl Print,
    kind: PredicateKind,
    tag: u8,
    value: AttributeValue,
    list: &[i64],
) -> io::Result<()>
    requires value_scale { (amount_in value).scale ≤ scale_limit }
    requires tag { tag < 6 }
{
    if lists::ascending(list) {
        let literal = predicates::literal_of(tag, NUMBERS[usize::from(tag)], SCALE);
        let truth = predicates::evaluate(kind, literal, &ELEMENTS, value, list);
        print!(rt; "{}", letter(truth))?;
    }
    Ok(())
}

fn cell(rt: &impl Print, kind: PredicateKind, tag: u8, attribute: AttributeKind) -> io::Result<()>
    requires { tag < 6 }
{
    if !allows(kind, tag) {
        return print!(rt; " {}", Refusal::SheetMalformed.number());
    }
    if !predicates::suits(kind, tag, u8::from(attribute)) {
        return print!(rt; " {}", Refusal::NotSuited.number());
    }
    print!(rt; " ")?;
    for (i, list) in LISTS.iter().enumerate() {
        says(rt, kind, tag, value(attribute, i), list)?;
    }
    Ok(())
}

fn row(rt: &impl Print, kind: PredicateKind, tag: u8) -> io::Result<()>
    requires { tag < 6 }
{
    print!(rt; "{} {tag}", kind.number())?;
    for attribute in ATTRIBUTES {
        cell(rt, kind, tag, attribute)?;
    }
    println!(rt)
}

// Each kind by its number, so that `number` and `kind_of` are tried too.
pub fn run(rt: &impl Print) -> io::Result<()> {
    for kind in KINDS {
        for tag in 0..6 {
            row(rt, predicates::kind_of(kind.number()), tag)?;
        }
    }
    Ok(())
}
