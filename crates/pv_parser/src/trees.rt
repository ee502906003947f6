//! The trees of types, statements, members and classes, and their spans.
ghost use Rattle.std.specs.Prelude.{◌≡◌};
ghost use Rattle.pv_exprs.specs.Trees as parts;
ghost use Rattle.pv_parser.specs.Trees as trees;

use crate::words::{Action, Base};
use pv_ast::{
    Args, Block, Class, Clauses, Contract, Expr, Formulas, Member, Members, Method, Param, Params,
    Predicate, PvType, Range, Right, RightKind, RunMethod, Stmt, StmtKind, TypeWord, Word,
};
use pv_base::Span;
use pv_exprs::{Part, start_of};
use pv_reading::across;
use sqlite_items::Boxed;

/// The type whose one word stands at `first`.
pub fn plain_type(base: Base, first: Span) -> TypeWord
    ensures { result ≡ trees.plain_type base first }
{
    let kind = match base {
        Base::Int => PvType::Int,
        Base::Truth => PvType::Truth,
    };
    TypeWord { kind, span: first }
}

/// The type of arrays whose word stands at `first` and whose last bracket stands at `last`.
pub fn array_type(base: Base, first: Span, last: Span) -> TypeWord
    ensures { result ≡ trees.array_type base first last }
{
    let kind = match base {
        Base::Int => PvType::IntArray,
        Base::Truth => PvType::TruthArray,
    };
    TypeWord {
        kind,
        span: across(first, last),
    }
}

/// The type of the objects of a class.
pub fn class_type(name: Word) -> TypeWord
    ensures { result ≡ trees.class_type name }
{
    TypeWord {
        kind: PvType::Object(name.name),
        span: name.span,
    }
}

/// A parameter or a field.
pub fn param_of(kind: TypeWord, name: Word) -> Param
    ensures { result ≡ trees.param_of kind name }
{
    Param { name, kind }
}

fn unboxed<T>(boxed: Option<Boxed<T>>) -> Option<T>
    ensures { result ≡ boxed }
{
    match boxed {
        Some(boxed) => Some(boxed.into_inner()),
        None => None,
    }
}

fn tree_of(part: Option<Part>) -> Option<Expr>
    ensures { result ≡ parts.tree_of part }
{
    match part {
        Some(part) => Some(part.into_tree()),
        None => None,
    }
}

/// An expression as a right side.
pub fn value_of(value: Part) -> Right
    ensures { result ≡ trees.value_of value }
{
    let Part { tree, span } = value;
    Right {
        span,
        kind: RightKind::Value(tree.into_inner()),
    }
}

/// A call, up to the parenthesis at `last`.
pub fn called(receiver: Option<Part>, name: Word, args: Args, last: Span) -> Right
    ensures { result ≡ trees.called receiver name args last }
{
    let span = across(start_of(&receiver, name), last);
    Right {
        span,
        kind: RightKind::Call(tree_of(receiver), name, args),
    }
}

/// A new object of a class, up to the parenthesis at `last`.
pub fn new_object(first: Span, class: Word, last: Span) -> Right
    ensures { result ≡ trees.new_object first class last }
{
    Right {
        span: across(first, last),
        kind: RightKind::NewObject(class),
    }
}

/// A new array of elements of that type.
pub fn new_array(first: Span, element: TypeWord, length: Part, last: Span) -> Right
    ensures { result ≡ trees.new_array first element length last }
{
    Right {
        span: across(first, last),
        kind: RightKind::NewArray(element, length.into_tree()),
    }
}

/// The positions from `low` to below `high`.
pub fn range_of(name: Word, low: Part, high: Part) -> Range
    ensures { result ≡ trees.range_of name low high }
{
    Range {
        name,
        low: low.into_tree(),
        high: high.into_tree(),
    }
}

fn statement_of(first: Span, last: Span, kind: StmtKind) -> Stmt
    ensures { result ≡ trees.stmt_of first last kind }
{
    Stmt {
        span: across(first, last),
        kind,
    }
}

/// A declaration, up to the semicolon at `last`.
pub fn local_statement(kind: TypeWord, name: Word, value: Option<Boxed<Right>>, last: Span) -> Stmt
    ensures { result ≡ trees.local_stmt kind name value last }
{
    let local = StmtKind::Local(kind, name, unboxed(value));
    statement_of(kind.span, last, local)
}

/// An assignment, up to the semicolon at `last`.
pub fn assign_statement(place: Part, value: Boxed<Right>, last: Span) -> Stmt
    ensures { result ≡ trees.assign_stmt place value last }
{
    let Part { tree, span } = place;
    let kind = StmtKind::Assign(tree.into_inner(), value.into_inner());
    statement_of(span, last, kind)
}

/// A call, up to the semicolon at `last`.
pub fn call_statement(receiver: Option<Part>, name: Word, args: Args, last: Span) -> Stmt
    ensures { result ≡ trees.call_stmt receiver name args last }
{
    let first = start_of(&receiver, name);
    statement_of(first, last, StmtKind::Call(tree_of(receiver), name, args))
}

/// A choice, from the `if` at `first` up to the end of its last block at `last`.
pub fn if_statement(first: Span, condition: Part, yes: Block, no: Block, last: Span) -> Stmt
    ensures { result ≡ trees.if_stmt first condition yes no last }
{
    statement_of(first, last, StmtKind::If(condition.into_tree(), yes, no))
}

/// A loop, from its first word at `first` up to the end of its body at `last`.
pub fn while_statement(
    first: Span,
    invariants: Formulas,
    condition: Part,
    body: Block,
    last: Span,
) -> Stmt
    ensures { result ≡ trees.while_stmt first invariants condition body last }
{
    let kind = StmtKind::While(invariants, condition.into_tree(), body);
    statement_of(first, last, kind)
}

/// A loop over a range, from the `for` at `first` up to the end of its body at `last`.
pub fn for_statement(
    first: Span,
    range: Boxed<Range>,
    clauses: Clauses,
    body: Block,
    last: Span,
) -> Stmt
    ensures { result ≡ trees.for_stmt first range clauses body last }
{
    let kind = StmtKind::For(range.into_inner(), Contract { clauses }, body);
    statement_of(first, last, kind)
}

/// A parallel block, from the `par` at `first` up to its end at `last`.
pub fn par_statement(
    first: Span,
    label: Option<Word>,
    range: Boxed<Range>,
    clauses: Clauses,
    body: Block,
    last: Span,
) -> Stmt
    ensures { result ≡ trees.par_stmt first label range clauses body last }
{
    let kind = StmtKind::Par(label, range.into_inner(), Contract { clauses }, body);
    statement_of(first, last, kind)
}

/// A barrier, from its first word at `first` up to the brace at `last`.
pub fn barrier_statement(first: Span, label: Word, clauses: Clauses, last: Span) -> Stmt
    ensures { result ≡ trees.barrier_stmt first label clauses last }
{
    statement_of(first, last, StmtKind::Barrier(label, Contract { clauses }))
}

/// An action on an object, from its word at `first` up to the semicolon at `last`.
pub fn action_statement(action: Action, first: Span, object: Part, last: Span) -> Stmt
    ensures { result ≡ trees.action_stmt action first object last }
{
    let tree = object.into_tree();
    let kind = match action {
        Action::Fork => StmtKind::Fork(tree),
        Action::Join => StmtKind::Join(tree),
        Action::Lock => StmtKind::Lock(tree),
        Action::Unlock => StmtKind::Unlock(tree),
        Action::Commit => StmtKind::Commit(tree),
    };
    statement_of(first, last, kind)
}

/// A `fold` or `unfold`, from that word at `first` up to the semicolon at `last`.
pub fn folding_statement(
    unfolds: bool,
    first: Span,
    receiver: Option<Part>,
    name: Word,
    args: Args,
    last: Span,
) -> Stmt
    ensures { result ≡ trees.folding_stmt unfolds first receiver name args last }
{
    let receiver = tree_of(receiver);
    let kind = if unfolds {
        StmtKind::Unfold(receiver, name, args)
    } else {
        StmtKind::Fold(receiver, name, args)
    };
    statement_of(first, last, kind)
}

/// An assertion, from the `assert` at `first` up to the semicolon at `last`.
pub fn assert_statement(first: Span, claim: Part, last: Span) -> Stmt
    ensures { result ≡ trees.assert_stmt first claim last }
{
    statement_of(first, last, StmtKind::Assert(claim.into_tree()))
}

/// A message that is sent, from the `send` at `first` up to the semicolon at `last`.
pub fn send_statement(first: Span, label: Word, distance: u64, message: Part, last: Span) -> Stmt
    ensures { result ≡ trees.send_stmt first label distance message last }
{
    let kind = StmtKind::Send(label, distance, message.into_tree());
    statement_of(first, last, kind)
}

/// A message that is received, from the `recv` at `first` up to the semicolon at `last`.
pub fn recv_statement(first: Span, label: Word, last: Span) -> Stmt
    ensures { result ≡ trees.recv_stmt first label last }
{
    statement_of(first, last, StmtKind::Recv(label))
}

/// A return, from the `return` at `first` up to the semicolon at `last`.
pub fn return_statement(first: Span, value: Option<Boxed<Expr>>, last: Span) -> Stmt
    ensures { result ≡ trees.return_stmt first value last }
{
    statement_of(first, last, StmtKind::Return(unboxed(value)))
}

/// A predicate, from the `resource` at `first` up to the semicolon at `last`.
pub fn predicate_of(first: Span, name: Word, params: Params, body: Part, last: Span) -> Member
    ensures { result ≡ trees.predicate_of first name params body last }
{
    Member::Predicate(Predicate {
        span: across(first, last),
        name,
        params,
        body: body.into_tree(),
    })
}

/// A method that begins at `first`, up to the end of its body at `last`.
pub fn method_of(
    first: Span,
    clauses: Clauses,
    result_type: Option<TypeWord>,
    name: Word,
    params: Params,
    body: Block,
    last: Span,
) -> Member
    ensures { result ≡ trees.method_of first clauses result_type name params body last }
{
    Member::Method(Method {
        span: across(first, last),
        name,
        result: result_type,
        params,
        contract: Contract { clauses },
        body,
    })
}

/// The method that a thread runs. The word `run` stands at `word`.
pub fn run_of(first: Span, clauses: Clauses, word: Span, body: Block, last: Span) -> Member
    ensures { result ≡ trees.run_of first clauses word body last }
{
    Member::Run(RunMethod {
        span: across(first, last),
        word,
        contract: Contract { clauses },
        body,
    })
}

/// A class that begins at `first`, up to the brace at `last`.
pub fn class_at(
    first: Span,
    lock_invariant: Option<Boxed<Expr>>,
    name: Word,
    members: Members,
    last: Span,
) -> Class
    ensures { result ≡ trees.class_at first lock_invariant name members last }
{
    Class {
        span: across(first, last),
        name,
        lock_invariant: unboxed(lock_invariant),
        members,
    }
}
