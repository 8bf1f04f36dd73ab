// What a predicate says of a value: Predicate::evaluate of the Rust. For a value or a literal that a kind of predicate cannot speak of,
// where the Rust stops, there is no answer.
ghost use Rattle.std.specs.Prelude.{◌≡◌, true, ◌≤◌};
ghost use Rattle.decimals.specs.Decimals.{scale_limit, compare_of};
ghost use Rattle.lists.specs.Sets.{ascends};
ghost use Rattle.predicates.specs.Integers.{integers_of};
ghost use Rattle.predicates.specs.Meaning.{boolean_in, amount_in, amount_of};
ghost use Rattle.predicates.specs.Meaning.{set_holds, comparison_holds, equality_holds, list_holds, null_holds, holds_of};
ghost use Rattle.predicates.specs.Meaning.{asks_null, answers, evaluate_of, Ready, literal_from};

use crate::elements::Stored;
use crate::{
    ComparisonOperator, EqualityOperator, ListOperator, Literal, NullOperator, PredicateKind,
    SetOperator, suiting,
};
use decimals::Decimal;
use evaluation::Truth;
use events::{AttributeValue, StringId};
use std::cmp::Ordering;

// What stands in a value or a literal that is no amount: no Option, since the definitions `amount_in` and `amount_of` hold a zero there.
const ZERO: Decimal = Decimal {
    number: 0,
    scale: 0,
};

// The literal of a tag, a number and a scale, as a book keeps them. The tag stays a number: `literal_from` speaks of every number.
#[tactic(auto, unfolding(crate::specs::Meaning::literal_from))]
pub fn literal_of(tag: u8, number: i64, scale: u8) -> Literal
    ensures { result ≡ literal_from tag number scale }
{
    match tag {
        1 => Literal::Integer(number),
        2 => Literal::Float(Decimal { number, scale }),
        3 => Literal::String(StringId(number)),
        4 => Literal::IntegerList,
        5 => Literal::StringList,
        _ => Literal::Nothing,
    }
}

// The boolean of a value, and false where it is none: no Option, since the definition `boolean_in` holds false there.
fn boolean_in(value: AttributeValue) -> bool
    ensures { result ≡ boolean_in value }
{
    matches!(value, AttributeValue::Boolean(true))
}

fn amount_in(value: AttributeValue) -> Decimal
    ensures { result ≡ amount_in value }
{
    match value {
        AttributeValue::Integer(number) | AttributeValue::String(StringId(number)) => {
            Decimal { number, scale: 0 }
        }
        AttributeValue::Float(amount) => amount,
        _ => ZERO,
    }
}

// Like `amount_in`, over an enum of its own: a trait for the two would still need both matches.
fn amount_of(literal: Literal) -> Decimal
    ensures { result ≡ amount_of literal }
{
    match literal {
        Literal::Integer(number) | Literal::String(StringId(number)) => {
            Decimal { number, scale: 0 }
        }
        Literal::Float(amount) => amount,
        _ => ZERO,
    }
}

// How the value stands to the literal.
fn order(value: AttributeValue, literal: Literal) -> Ordering
    requires { ((amount_in value).scale ≤ scale_limit) × ((amount_of literal).scale ≤ scale_limit) }
    ensures { result ≡ compare_of (amount_in value) (amount_of literal) }
{
    decimals::compare(amount_in(value), amount_of(literal))
}

impl SetOperator {
    fn holds(self, value: i64, elements: &[u8]) -> bool
        requires { ascends (integers_of elements.now) ≡ true }
        ensures { result ≡ set_holds self value (integers_of elements.now) }
    {
        match self {
            SetOperator::In => lists::within(Stored(elements), value),
            SetOperator::NotIn => !lists::within(Stored(elements), value),
        }
    }
}

impl ComparisonOperator {
    fn holds(self, order: Ordering) -> bool
        ensures { result ≡ comparison_holds self order }
    {
        match self {
            ComparisonOperator::LessThan => order.is_lt(),
            ComparisonOperator::LessThanEqual => order.is_le(),
            ComparisonOperator::GreaterThanEqual => order.is_ge(),
            ComparisonOperator::GreaterThan => order.is_gt(),
        }
    }
}

impl EqualityOperator {
    fn holds(self, order: Ordering) -> bool
        ensures { result ≡ equality_holds self order }
    {
        match self {
            EqualityOperator::Equal => order.is_eq(),
            EqualityOperator::NotEqual => order.is_ne(),
        }
    }
}

impl ListOperator {
    fn holds(self, list: &[i64], elements: &[u8]) -> bool
        requires { (ascends list.now ≡ true) × (ascends (integers_of elements.now) ≡ true) }
        ensures { result ≡ list_holds self list.now (integers_of elements.now) }
    {
        match self {
            ListOperator::OneOf => lists::shares(list, Stored(elements)),
            ListOperator::NoneOf => !lists::shares(list, Stored(elements)),
            ListOperator::AllOf => lists::inside(list, Stored(elements)),
            ListOperator::NotAllOf => !lists::inside(list, Stored(elements)),
        }
    }
}

impl NullOperator {
    fn holds(self, value: AttributeValue, list: &[i64]) -> bool
        ensures { result ≡ null_holds self value list.now }
    {
        match self {
            NullOperator::IsNull => matches!(value, AttributeValue::Undefined),
            NullOperator::IsNotNull => !matches!(value, AttributeValue::Undefined),
            NullOperator::IsEmpty => list.is_empty(),
            NullOperator::IsNotEmpty => !list.is_empty(),
        }
    }
}

impl PredicateKind {
    fn asks_null(self) -> bool
        ensures { result ≡ asks_null self }
    {
        matches!(
            self,
            PredicateKind::Null(NullOperator::IsNull | NullOperator::IsNotNull)
        )
    }
}

// Whether a predicate has an answer for the value.
#[tactic(auto, unfolding(crate::specs::Meaning::answers))]
fn has_answer(kind: PredicateKind, literal: Literal, value: AttributeValue) -> bool
    ensures { result ≡ answers kind literal value }
{
    kind.asks_null()
        || suiting::suits(
            kind,
            suiting::tag(literal),
            events::kind_number(value.kind()),
        )
}

// The answer, where there is one.
fn holds(
    kind: PredicateKind,
    literal: Literal,
    elements: &[u8],
    value: AttributeValue,
    list: &[i64],
) -> bool
    requires { Ready literal (integers_of elements.now) value list.now }
    ensures { result ≡ holds_of kind literal (integers_of elements.now) value list.now }
{
    match kind {
        PredicateKind::Variable => boolean_in(value),
        PredicateKind::NegatedVariable => !boolean_in(value),
        PredicateKind::Set(operator) => operator.holds(amount_in(value).number, elements),
        PredicateKind::Comparison(operator) => operator.holds(order(value, literal)),
        PredicateKind::Equality(operator) => operator.holds(order(value, literal)),
        PredicateKind::List(operator) => operator.holds(list, elements),
        PredicateKind::Null(operator) => operator.holds(value, list),
    }
}

// What a predicate says of a value. The elements of the literal's list are a part of a book's bytes.
// The five stay parameters: `evaluate` is public, and a struct for `has_answer` and `holds` would be built here only to be taken apart.
#[tactic(auto, unfolding(crate::specs::Meaning::evaluate_of))]
pub fn evaluate(
    kind: PredicateKind,
    literal: Literal,
    elements: &[u8],
    value: AttributeValue,
    list: &[i64],
) -> Truth
    requires { Ready literal (integers_of elements.now) value list.now }
    ensures { result ≡ evaluate_of kind literal (integers_of elements.now) value list.now }
{
    if !has_answer(kind, literal, value) {
        return Truth::Undefined;
    }
    Truth::from(holds(kind, literal, elements, value, list))
}
