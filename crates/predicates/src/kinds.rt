// The kinds of predicates: the number of each in the rule sheet, the kind that says the opposite, and the cost.
ghost use Rattle.std.specs.Prelude.{◌≡◌};
ghost use Rattle.predicates.specs.Kinds.{number_of, kind_of, element_cost, cost_of};
ghost use Rattle.predicates.specs.Kinds.{set_negated, comparison_negated, equality_negated, list_negated, null_negated, negated_of};

use crate::{
    ComparisonOperator, EqualityOperator, ListOperator, NullOperator, PredicateKind, SetOperator,
};

// What an element of the list costs.
const CONSTANT_COST: u64 = 0;

const LOGARITHMIC_COST: u64 = 1;

const LIST_COST: u64 = 2;

// What says the opposite, for each operator: methods by value, as the scope has them, and no `impl Not`.
impl SetOperator {
    fn negated(self) -> SetOperator
        ensures { result ≡ set_negated self }
    {
        match self {
            SetOperator::NotIn => SetOperator::In,
            SetOperator::In => SetOperator::NotIn,
        }
    }
}

impl ComparisonOperator {
    fn negated(self) -> ComparisonOperator
        ensures { result ≡ comparison_negated self }
    {
        match self {
            ComparisonOperator::LessThan => ComparisonOperator::GreaterThanEqual,
            ComparisonOperator::LessThanEqual => ComparisonOperator::GreaterThan,
            ComparisonOperator::GreaterThanEqual => ComparisonOperator::LessThan,
            ComparisonOperator::GreaterThan => ComparisonOperator::LessThanEqual,
        }
    }
}

impl EqualityOperator {
    fn negated(self) -> EqualityOperator
        ensures { result ≡ equality_negated self }
    {
        match self {
            EqualityOperator::Equal => EqualityOperator::NotEqual,
            EqualityOperator::NotEqual => EqualityOperator::Equal,
        }
    }
}

impl ListOperator {
    fn negated(self) -> ListOperator
        ensures { result ≡ list_negated self }
    {
        match self {
            ListOperator::OneOf => ListOperator::NoneOf,
            ListOperator::NoneOf => ListOperator::OneOf,
            ListOperator::AllOf => ListOperator::NotAllOf,
            ListOperator::NotAllOf => ListOperator::AllOf,
        }
    }
}

impl NullOperator {
    fn negated(self) -> NullOperator
        ensures { result ≡ null_negated self }
    {
        match self {
            NullOperator::IsNull => NullOperator::IsNotNull,
            NullOperator::IsNotNull => NullOperator::IsNull,
            NullOperator::IsEmpty => NullOperator::IsNotEmpty,
            NullOperator::IsNotEmpty => NullOperator::IsEmpty,
        }
    }
}

impl PredicateKind {
    // The kind's number in a rule sheet: a method and no `From`, so that it has its name at the call.
    pub fn number(self) -> u8
        ensures { result ≡ number_of self }
    {
        match self {
            PredicateKind::Variable => 10,
            PredicateKind::NegatedVariable => 11,
            PredicateKind::Set(operator) => match operator {
                SetOperator::In => 20,
                SetOperator::NotIn => 21,
            },
            PredicateKind::Comparison(operator) => match operator {
                ComparisonOperator::LessThan => 30,
                ComparisonOperator::LessThanEqual => 31,
                ComparisonOperator::GreaterThanEqual => 32,
                ComparisonOperator::GreaterThan => 33,
            },
            PredicateKind::Equality(operator) => match operator {
                EqualityOperator::Equal => 40,
                EqualityOperator::NotEqual => 41,
            },
            PredicateKind::List(operator) => match operator {
                ListOperator::OneOf => 50,
                ListOperator::NoneOf => 51,
                ListOperator::AllOf => 52,
                ListOperator::NotAllOf => 53,
            },
            PredicateKind::Null(operator) => match operator {
                NullOperator::IsNull => 60,
                NullOperator::IsNotNull => 61,
                NullOperator::IsEmpty => 62,
                NullOperator::IsNotEmpty => 63,
            },
        }
    }

    // The kind that says the opposite.
    pub fn negated(self) -> PredicateKind
        ensures { result ≡ negated_of self }
    {
        match self {
            PredicateKind::Variable => PredicateKind::NegatedVariable,
            PredicateKind::NegatedVariable => PredicateKind::Variable,
            PredicateKind::Set(operator) => PredicateKind::Set(operator.negated()),
            PredicateKind::Comparison(operator) => PredicateKind::Comparison(operator.negated()),
            PredicateKind::Equality(operator) => PredicateKind::Equality(operator.negated()),
            PredicateKind::List(operator) => PredicateKind::List(operator.negated()),
            PredicateKind::Null(operator) => PredicateKind::Null(operator.negated()),
        }
    }

    fn element_cost(self) -> u64
        ensures { result ≡ element_cost self }
    {
        match self {
            PredicateKind::Set(_) => LOGARITHMIC_COST,
            PredicateKind::List(_) => LIST_COST,
            _ => CONSTANT_COST,
        }
    }

    // What it costs to value a predicate of this kind with a list of that many elements.
    pub fn cost(self, length: u32) -> u64
        ensures { result ≡ cost_of self length }
    {
        self.element_cost() * u64::from(length)
    }
}

// The kind of a number in a rule sheet. A number that no kind has gives the kind "is not empty".
// Public, and `kind_of` of specs/ speaks of every number, so it stays; a `TryFrom` beside it would have no caller.
#[tactic(auto, unfolding(crate::specs::Kinds::kind_of, crate::specs::Kinds::numbered, crate::specs::Kinds::kinds))]
pub fn kind_of(number: u8) -> PredicateKind
    ensures { result ≡ kind_of number }
{
    match number {
        10 => PredicateKind::Variable,
        11 => PredicateKind::NegatedVariable,
        20 => PredicateKind::Set(SetOperator::In),
        21 => PredicateKind::Set(SetOperator::NotIn),
        30 => PredicateKind::Comparison(ComparisonOperator::LessThan),
        31 => PredicateKind::Comparison(ComparisonOperator::LessThanEqual),
        32 => PredicateKind::Comparison(ComparisonOperator::GreaterThanEqual),
        33 => PredicateKind::Comparison(ComparisonOperator::GreaterThan),
        40 => PredicateKind::Equality(EqualityOperator::Equal),
        41 => PredicateKind::Equality(EqualityOperator::NotEqual),
        50 => PredicateKind::List(ListOperator::OneOf),
        51 => PredicateKind::List(ListOperator::NoneOf),
        52 => PredicateKind::List(ListOperator::AllOf),
        53 => PredicateKind::List(ListOperator::NotAllOf),
        60 => PredicateKind::Null(NullOperator::IsNull),
        61 => PredicateKind::Null(NullOperator::IsNotNull),
        62 => PredicateKind::Null(NullOperator::IsEmpty),
        _ => PredicateKind::Null(NullOperator::IsNotEmpty),
    }
}
