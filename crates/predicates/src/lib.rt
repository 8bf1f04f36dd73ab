// What a rule asks of one attribute: Predicate and its operators of predicates.rs in the Rust. A kind of predicate has a number in the rule
// sheet, suits some literals and attributes, has a kind that says the opposite and a cost, and says something of each value.
#![tactic(auto)]

use decimals::Decimal;
use events::StringId;

mod elements;
mod kinds;
mod meaning;
mod suiting;

pub use elements::ELEMENT_SIZE;
pub use kinds::kind_of;
pub use meaning::{evaluate, literal_of};
pub use suiting::suits;

#[derive(Clone, Copy, Debug, PartialEq, Eq)]
pub enum SetOperator {
    NotIn,
    In,
}

#[derive(Clone, Copy, Debug, PartialEq, Eq)]
pub enum ComparisonOperator {
    LessThan,
    LessThanEqual,
    GreaterThanEqual,
    GreaterThan,
}

#[derive(Clone, Copy, Debug, PartialEq, Eq)]
pub enum EqualityOperator {
    Equal,
    NotEqual,
}

#[derive(Clone, Copy, Debug, PartialEq, Eq)]
pub enum ListOperator {
    OneOf,
    NoneOf,
    AllOf,
    NotAllOf,
}

#[derive(Clone, Copy, Debug, PartialEq, Eq)]
pub enum NullOperator {
    IsNull,
    IsNotNull,
    IsEmpty,
    IsNotEmpty,
}

#[derive(Clone, Copy, Debug, PartialEq, Eq)]
pub enum PredicateKind {
    Variable,
    NegatedVariable,
    Set(SetOperator),
    Comparison(ComparisonOperator),
    Equality(EqualityOperator),
    List(ListOperator),
    Null(NullOperator),
}

// What a predicate holds its attribute against. The elements of a list stand beside it, in the book. No `==`, since a decimal has none.
#[derive(Clone, Copy, Debug)]
pub enum Literal {
    Nothing,
    Integer(i64),
    Float(Decimal),
    String(StringId),
    IntegerList,
    StringList,
}
