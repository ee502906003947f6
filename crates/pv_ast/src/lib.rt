//! The trees of programs. A contract sees them as plain data.
#![tactic(auto)]

mod fault;
mod scope;
mod standing;

pub use fault::{Fault, Rule, ShapeFault};
use pv_base::{Name, Span};
pub use scope::{Declaration, Declared, Scope, ScopeVar, ScopeVars};
use sqlite_items::{Boxed, Items};
pub use standing::{Context, Need, Seen, StatementContext, Surround, Typing};

/// A name where it stands.
#[derive(Clone, Copy, Debug, PartialEq, Eq, Drop)]
pub struct Word {
    pub name: Name,
    pub span: Span,
}

/// A type. `bool` is `boolean`, and `Null` is the type of `null` alone.
#[derive(Clone, Copy, Debug, PartialEq, Eq, Drop)]
pub enum PvType {
    Int,
    Truth,
    Object(Name),
    IntArray,
    TruthArray,
    Null,
}

/// A type where it is written.
#[derive(Clone, Copy, Debug, PartialEq, Eq, Drop)]
pub struct TypeWord {
    pub kind: PvType,
    pub span: Span,
}

/// The operators between two expressions.
#[derive(Clone, Copy, Debug, PartialEq, Eq, Drop)]
pub enum Operator {
    Add,
    Sub,
    Mul,
    Eq,
    Ne,
    Lt,
    Le,
    Gt,
    Ge,
    And,
    Or,
    Implies,
    Star,
}

/// The tokens of a thread and of a lock.
#[derive(Clone, Copy, Debug, PartialEq, Eq, Drop)]
pub enum Token {
    Idle,
    Running,
    Committed,
    Uncommitted,
}

/// An expression or a formula, with the span from its first to its last token. Parentheses around it belong to the part
/// around it.
#[cycle(expr)]
#[derive(Drop)]
pub struct Expr {
    pub span: Span,
    pub kind: ExprKind,
}

#[cycle(expr)]
#[derive(Drop)]
pub enum ExprKind {
    Number(u64),
    Truth(bool),
    Null,
    This,
    /// `\result`
    Result,
    Var(Word),
    Field(Boxed<Expr>, Word),
    Index(Boxed<Expr>, Boxed<Expr>),
    Not(Boxed<Expr>),
    Minus(Boxed<Expr>),
    Binary(Operator, Boxed<Expr>, Boxed<Expr>),
    /// `\old(..)`
    Old(Boxed<Expr>),
    /// A permission of so many parts (second) of so many (third), and where that amount stands.
    Perm(Boxed<Expr>, u64, u64, Span),
    Token(Token, Boxed<Expr>),
    /// A folded predicate on a target, with its arguments.
    Instance(Option<Boxed<Expr>>, Word, Args),
    Each(Each),
}

/// A quantified formula: `\forall*` where `star`, else `\forall`. `written` has the two names of the form of bounds that
/// repeats the bound variable.
#[cycle(expr)]
#[derive(Drop)]
pub struct Each {
    pub star: bool,
    pub name: Word,
    pub low: Boxed<Expr>,
    pub high: Boxed<Expr>,
    pub body: Boxed<Expr>,
    pub written: Option<(Word, Word)>,
}

pub type Args = Items<Expr>;

pub type Formulas = Items<Expr>;

/// The three kinds of clauses. A `context` clause stands in both conditions.
#[derive(Clone, Copy, Debug, PartialEq, Eq, Drop)]
pub enum ClauseKind {
    Requires,
    Ensures,
    Context,
}

#[derive(Drop)]
pub struct Clause {
    pub kind: ClauseKind,
    pub formula: Expr,
}

pub type Clauses = Items<Clause>;

/// A contract. Its precondition is the formulas of its `requires` and `context` clauses in order, its postcondition those of
/// its `ensures` and `context` clauses.
#[derive(Drop)]
pub struct Contract {
    pub clauses: Clauses,
}

/// The positions from `low` to below `high`.
#[derive(Drop)]
pub struct Range {
    pub name: Word,
    pub low: Expr,
    pub high: Expr,
}

/// The right side of a declaration or an assignment.
#[derive(Drop)]
pub struct Right {
    pub span: Span,
    pub kind: RightKind,
}

#[derive(Drop)]
pub enum RightKind {
    Value(Expr),
    Call(Option<Expr>, Word, Args),
    NewObject(Word),
    NewArray(TypeWord, Expr),
}

/// A statement, with the span up to its last token, a `;` or a `}`.
#[cycle(stmt)]
#[derive(Drop)]
pub struct Stmt {
    pub span: Span,
    pub kind: StmtKind,
}

#[cycle(stmt)]
#[derive(Drop)]
pub enum StmtKind {
    Local(TypeWord, Word, Option<Right>),
    Assign(Expr, Right),
    Call(Option<Expr>, Word, Args),
    If(Expr, Block, Block),
    While(Formulas, Expr, Block),
    For(Range, Contract, Block),
    Par(Option<Word>, Range, Contract, Block),
    Barrier(Word, Contract),
    Fork(Expr),
    Join(Expr),
    Lock(Expr),
    Unlock(Expr),
    Commit(Expr),
    Fold(Option<Expr>, Word, Args),
    Unfold(Option<Expr>, Word, Args),
    Assert(Expr),
    /// A message under a label, to the member so many positions further on.
    Send(Word, u64, Expr),
    Recv(Word),
    Return(Option<Expr>),
}

pub type Block = Items<Stmt>;

#[derive(Clone, Copy, Debug, PartialEq, Eq, Drop)]
pub struct Param {
    pub name: Word,
    pub kind: TypeWord,
}

pub type Params = Items<Param>;

#[derive(Drop)]
pub enum Member {
    Field(Param),
    Predicate(Predicate),
    Method(Method),
    Run(RunMethod),
}

pub type Members = Items<Member>;

#[derive(Drop)]
pub struct Predicate {
    pub span: Span,
    pub name: Word,
    pub params: Params,
    pub body: Expr,
}

/// A method. `result` is None for `void`.
#[derive(Drop)]
pub struct Method {
    pub span: Span,
    pub name: Word,
    pub result: Option<TypeWord>,
    pub params: Params,
    pub contract: Contract,
    pub body: Block,
}

/// What a thread of the class runs. `word` is the span of the word `run`.
#[derive(Drop)]
pub struct RunMethod {
    pub span: Span,
    pub word: Span,
    pub contract: Contract,
    pub body: Block,
}

#[derive(Drop)]
pub struct Class {
    pub span: Span,
    pub name: Word,
    pub lock_invariant: Option<Expr>,
    pub members: Members,
}

pub type Classes = Items<Class>;

/// A program. `length` is the number of the word `length` where the text has it.
#[derive(Drop)]
pub struct Program {
    pub classes: Classes,
    pub length: Option<Name>,
}
