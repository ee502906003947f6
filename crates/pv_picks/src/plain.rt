//! Plain trees: programs in which the static rules have settled each name, type and operator. The meaning of programs is told on
//! such trees, and code that runs programs walks them.
//!
//! A name is a variable or a field of `this`; a field carries its class, an element and a length the type of the elements; calls,
//! forks, folds and locks carry the class of their object; each part that a check can name carries the span of its conjunct.

use pv_ast::{PvType, Token};
use pv_base::{Name, Span};
use pv_values::Value;
use sqlite_items::{Boxed, Items};

#[derive(Clone, Copy, Debug, PartialEq, Eq, Drop)]
pub enum Operation {
    Plus,
    Minus,
    Times,
}

/// A plain operation is worked out; the value of a tabled one comes from the evidence of a run, where that has one.
#[derive(Clone, Copy, Debug, PartialEq, Eq, Drop)]
pub enum Manner {
    Plain,
    Tabled,
}

#[derive(Clone, Copy, Debug, PartialEq, Eq, Drop)]
pub enum Comparison {
    Less,
    AtMost,
    Greater,
    AtLeast,
}

/// An expression. The span of a field, an element or a length is that of the access.
#[cycle(expression)]
#[derive(Drop)]
pub enum Expression {
    Constant(Value),
    This,
    /// `\result`
    Result,
    Variable(Name),
    /// Object, class, field.
    Field(Boxed<Expression>, Name, Name, Span),
    /// Type of the elements, array, index.
    Element(PvType, Boxed<Expression>, Boxed<Expression>, Span),
    /// Type of the elements, array.
    Length(PvType, Boxed<Expression>, Span),
    Not(Boxed<Expression>),
    Compute(Manner, Operation, Boxed<Expression>, Boxed<Expression>, Span),
    /// Of two numbers.
    Compare(Comparison, Boxed<Expression>, Boxed<Expression>),
    /// Whether two values of one type are the same, or differ where the truth value is false.
    Equal(bool, Boxed<Expression>, Boxed<Expression>),
    And(Boxed<Expression>, Boxed<Expression>),
    Or(Boxed<Expression>, Boxed<Expression>),
    Implies(Boxed<Expression>, Boxed<Expression>),
    /// In the old state.
    Old(Boxed<Expression>),
}

pub type Expressions = Items<Expression>;

/// A guard on a position, by a term in which the position doesn't stand.
#[derive(Drop)]
pub enum Cut {
    Below(Expression),
    UpTo(Expression),
    Above(Expression),
    From(Expression),
    /// A condition without the position.
    Provided(Expression),
}

pub type Cuts = Items<Cut>;

/// A formula. The span of each part is that of its conjunct. Amounts are counted in units.
#[cycle(formula)]
#[derive(Drop)]
pub enum Formula {
    /// A pure condition.
    Fact(Expression, Span),
    /// Object, class, field, type of the field, amount.
    FieldPermission(Expression, Name, Name, PvType, u64, Span),
    /// Type of the elements, array, index, amount.
    ElementPermission(PvType, Expression, Expression, u64, Span),
    /// A token of an object of the class.
    Holds(Token, Name, Expression, Span),
    /// Class, predicate, object, arguments.
    Instance(Name, Name, Expression, Expressions, Span),
    Star(Boxed<Formula>, Boxed<Formula>),
    /// A formula under a condition.
    When(Expression, Boxed<Formula>, Span),
    /// The items at each position from the first bound to below the second, for which the name stands.
    Each(Name, Expression, Expression, Items<Item>, Span),
}

/// What is said of each position.
#[cycle(formula)]
#[derive(Drop)]
pub enum Item {
    /// Type of the elements, array, shift from the position to the index, amount.
    Elements(PvType, Expression, i128, u64, Span),
    /// A pure condition.
    Repeated(Expression, Span),
    /// `committed`, without the position.
    Committed(Name, Expression, Span),
    /// Guards from left to right, before an item.
    Guarded(Cuts, Boxed<Item>, Span),
    /// A formula at the one position that a term names.
    Fixed(Expression, Boxed<Formula>, Span),
}

/// Formulas one behind the other, as the clauses of a contract.
pub type Formulas = Items<Formula>;

/// What is done with an object.
#[derive(Clone, Copy, Debug, PartialEq, Eq, Drop)]
pub enum Action {
    Fork,
    Join,
    Lock,
    Unlock,
    Commit,
}

/// Where a value goes.
#[derive(Drop)]
pub enum Target {
    Nowhere,
    ToVariable(Name),
    /// Object, class, field.
    ToField(Expression, Name, Name, Span),
    /// Type of the elements, array, index.
    ToElement(PvType, Expression, Expression, Span),
}

/// What is assigned.
#[derive(Drop)]
pub enum Right {
    Value(Expression),
    /// Class, method, object, arguments.
    Call(Name, Name, Expression, Expressions),
    NewObject(Name),
    /// Type of the elements, length.
    NewArray(PvType, Expression),
}

#[derive(Drop)]
pub struct Contract {
    pub before: Formulas,
    pub after: Formulas,
}

/// A contract that members keep: at one position, and item by item at every position.
#[derive(Drop)]
pub struct Shared {
    pub one: Contract,
    pub each_before: Items<Item>,
    pub each_after: Items<Item>,
}

/// A par block, or a counted loop where `counted`: the name of the position and its range, the contract of each member.
#[derive(Drop)]
pub struct Team {
    pub counted: bool,
    pub variable: Name,
    pub low: Expression,
    pub high: Expression,
    pub shared: Shared,
}

/// A barrier, told apart from the others of its method by the way to it.
#[derive(Drop)]
pub struct Barrier {
    pub place: Items<u64>,
    pub shared: Shared,
}

/// Messages under one label: to which distance, and the formula at the sender's position.
#[derive(Drop)]
pub struct Message {
    pub label: Name,
    pub distance: u64,
    pub formula: Formula,
}

#[derive(Clone, Copy, Debug, PartialEq, Eq, Drop)]
pub struct Parameter {
    pub name: Name,
    pub kind: PvType,
}

pub type Parameters = Items<Parameter>;

#[cycle(statement)]
#[derive(Drop)]
pub enum Statement {
    Assign(Target, Right, Span),
    If(Expression, Items<Statement>, Items<Statement>),
    /// The variables in scope that the body assigns, in the order of their first assignments; invariant, condition, body.
    While(Parameters, Formulas, Expression, Items<Statement>, Span),
    Members(Team, Items<Statement>, Span),
    Meet(Barrier, Span),
    /// On an object of the class.
    Act(Action, Name, Expression, Span),
    /// Class, predicate, object, arguments.
    Fold(Name, Name, Expression, Expressions, Span),
    Unfold(Name, Name, Expression, Expressions, Span),
    Assert(Formula, Span),
    Send(Message, Span),
    Receive(Message, Span),
    Return(Option<Expression>, Span),
}

pub type Block = Items<Statement>;

#[derive(Drop)]
pub struct Predicate {
    pub name: Name,
    pub parameters: Parameters,
    pub body: Formula,
}

/// A method, or `run` where it has no name; `old` where a formula of it speaks of the state that it began in.
#[derive(Drop)]
pub struct Method {
    pub name: Option<Name>,
    pub parameters: Parameters,
    pub result: Option<PvType>,
    pub contract: Contract,
    pub body: Block,
    pub old: bool,
}

#[derive(Drop)]
pub enum Member {
    Field(Parameter),
    Predicate(Predicate),
    Method(Method),
}

#[derive(Drop)]
pub struct Class {
    pub name: Name,
    pub lock_invariant: Option<Formula>,
    pub members: Items<Member>,
}

pub type Program = Items<Class>;
