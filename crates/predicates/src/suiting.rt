// Which literals and which attributes suit which kind of predicate: what validate_predicate says in the Rust.
ghost use Rattle.std.specs.Prelude.{◌≡◌};
ghost use Rattle.predicates.specs.Suits.{tag_of, suits_of};

use crate::{Literal, NullOperator, PredicateKind};
use attributes::AttributeKind as Kind;

// The literal's tag in a rule sheet. No `From`, which would be no plainer: a literal holds other numbers, and `tag` says which one this is.
pub fn tag(literal: Literal) -> u8
    ensures { result ≡ tag_of literal }
{
    match literal {
        Literal::Nothing => 0,
        Literal::Integer(_) => 1,
        Literal::Float(_) => 2,
        Literal::String(_) => 3,
        Literal::IntegerList => 4,
        Literal::StringList => 5,
    }
}

// Whether a literal, by its tag, and an attribute, by the number of its kind, suit the kind of predicate.
// Both stay numbers: the definition `suits_of` speaks of every number.
#[tactic(auto, unfolding(crate::specs::Suits::pair))]
pub fn suits(kind: PredicateKind, tag: u8, attribute: u8) -> bool
    ensures { result ≡ suits_of kind tag attribute }
{
    let pairs = |wanted, kind| tag == wanted && attribute == u8::from(kind);
    match kind {
        PredicateKind::Variable | PredicateKind::NegatedVariable => pairs(0, Kind::Boolean),
        PredicateKind::Set(_) => pairs(4, Kind::Integer) || pairs(5, Kind::String),
        PredicateKind::Comparison(_) => pairs(1, Kind::Integer) || pairs(2, Kind::Float),
        PredicateKind::Equality(_) => {
            pairs(1, Kind::Integer) || pairs(2, Kind::Float) || pairs(3, Kind::String)
        }
        PredicateKind::List(_) => pairs(4, Kind::IntegerList) || pairs(5, Kind::StringList),
        PredicateKind::Null(NullOperator::IsNull | NullOperator::IsNotNull) => {
            pairs(0, Kind::Boolean)
                || pairs(0, Kind::Integer)
                || pairs(0, Kind::Float)
                || pairs(0, Kind::String)
        }
        PredicateKind::Null(NullOperator::IsEmpty | NullOperator::IsNotEmpty) => {
            pairs(0, Kind::IntegerList) || pairs(0, Kind::StringList)
        }
    }
}
