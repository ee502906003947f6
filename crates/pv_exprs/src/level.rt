//! Where an expression stands, and the levels of operators.
ghost use Rattle.std.specs.Prelude.{◌≡◌, ◌∷◌, []};
ghost use Rattle.pv_exprs.specs.Operators.{operator_of, operators, repeats as repeats_of, tighter as tighter_of};
ghost use Rattle.pv_exprs.specs.declared.level.Level.TheVariants as level;
ghost use Rattle.pv_reading.specs.Reading.{entry_of};
ghost use Rattle.pv_tokens.specs.declared.LexemeKind.TheVariants as kind;

use pv_ast::Operator;
use pv_tokens::fixed::{
    AND_AND, AT_LEAST, AT_MOST, EQUAL, GREATER, LESS, MINUS, NOT_EQUAL, OR_OR, PLUS, STAR,
    STAR_STAR,
};

/// Where an expression stands: as a part of a statement, or inside a formula, where more atoms may stand.
#[derive(Clone, Copy, Debug, PartialEq, Eq, Drop)]
pub enum Mode {
    Program,
    Logic,
}

/// The levels of operators between two parts, from the loosest to the tightest. `||` and `**` are never mixed.
#[derive(Clone, Copy, Debug, PartialEq, Eq, Drop)]
pub enum Level {
    /// `**`
    Separation,
    /// `||`
    Disjunction,
    /// `&&`
    Conjunction,
    /// `==` and `!=`, at most one
    Equality,
    /// `<`, `<=`, `>` and `>=`, at most one
    Comparison,
    /// `+` and `-`
    Sum,
    /// `*`
    Product,
}

/// The operator, if its token is the one of that number.
fn only(number: u32, token: u32, operator: Operator) -> Option<Operator>
    ensures { result ≡ entry_of ((token, operator) ∷ []) number }
{
    if number == token {
        Some(operator)
    } else {
        None
    }
}

fn equality(number: u32) -> Option<Operator>
    ensures { result ≡ entry_of (operators level.Equality) number }
{
    match number {
        EQUAL => Some(Operator::Eq),
        NOT_EQUAL => Some(Operator::Ne),
        _ => None,
    }
}

fn comparison(number: u32) -> Option<Operator>
    ensures { result ≡ entry_of (operators level.Comparison) number }
{
    match number {
        LESS => Some(Operator::Lt),
        AT_MOST => Some(Operator::Le),
        GREATER => Some(Operator::Gt),
        AT_LEAST => Some(Operator::Ge),
        _ => None,
    }
}

fn addition(number: u32) -> Option<Operator>
    ensures { result ≡ entry_of (operators level.Sum) number }
{
    match number {
        PLUS => Some(Operator::Add),
        MINUS => Some(Operator::Sub),
        _ => None,
    }
}

impl Level {
    /// The operator between parts of the level that is the fixed token of that number.
    pub fn operator(self, number: u32) -> Option<Operator>
        ensures { result ≡ operator_of self (kind.Fixed number) }
    {
        match self {
            Level::Separation => only(number, STAR_STAR, Operator::Star),
            Level::Disjunction => only(number, OR_OR, Operator::Or),
            Level::Conjunction => only(number, AND_AND, Operator::And),
            Level::Equality => equality(number),
            Level::Comparison => comparison(number),
            Level::Sum => addition(number),
            Level::Product => only(number, STAR, Operator::Mul),
        }
    }

    /// Whether more than one operator may stand in a chain of the level.
    pub fn repeats(self) -> bool
        ensures { result ≡ repeats_of self }
    {
        !matches!(self, Level::Equality | Level::Comparison)
    }

    /// The level of the parts. There is none where they are unary expressions.
    pub fn tighter(self) -> Option<Level>
        ensures { result ≡ tighter_of self }
    {
        match self {
            Level::Separation | Level::Disjunction => Some(Level::Conjunction),
            Level::Conjunction => Some(Level::Equality),
            Level::Equality => Some(Level::Comparison),
            Level::Comparison => Some(Level::Sum),
            Level::Sum => Some(Level::Product),
            Level::Product => None,
        }
    }
}
