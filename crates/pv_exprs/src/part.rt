//! Expressions as the reader meets them, and the trees that it makes.
ghost use Rattle.std.specs.Prelude.{◌≡◌};
ghost use Rattle.pv_reading.specs.Given.{GivesNext};
ghost use Rattle.pv_exprs.specs.Trees.{node, joined, negated, signed, widened as widened_of, field_of, element_of, part_of as part_of_chain, instance_of, start_of, old_of, perm_of, token_part, each_of};

use pv_ast::{Args, Each, Expr, ExprKind, Operator, Token, Word};
use pv_base::Span;
use pv_reading::{ReadFault, across};
use sqlite_items::Boxed;
use std::alloc::Global;

/// A tree, and where the tokens that spell it begin and end, parentheses around it too. The tree is boxed, so that the tree
/// around it takes the box as it is.
#[derive(Drop)]
pub struct Part {
    pub tree: Boxed<Expr>,
    pub span: Span,
}

impl Part {
    /// The tree alone.
    pub fn into_tree(self) -> Expr
        ensures { result ≡ self.tree }
    {
        self.into_boxed().into_inner()
    }

    /// The tree alone, in its box.
    pub fn into_boxed(self) -> Boxed<Expr>
        ensures { result ≡ self.tree }
    {
        let Part { tree, span: _ } = self;
        tree
    }
}

/// An expression by its end: a name, maybe behind a receiver, or something else. A chain that ends in a name may be a target.
#[derive(Drop)]
pub enum Chain {
    Named(Option<Part>, Word),
    Other(Part),
}

/// An amount of permission: so many parts of a whole that has so many.
#[derive(Clone, Copy, Debug, PartialEq, Eq, Drop)]
pub struct Amount {
    pub parts: u64,
    pub whole: u64,
    pub span: Span,
}

/// The bounds of a quantifier, and the two names of the form that repeats the bound variable.
#[derive(Drop)]
pub struct Bounds {
    pub low: Part,
    pub high: Part,
    pub written: Option<(Word, Word)>,
}

/// The part of a tree with no parentheses around it.
pub fn bare(alloc: Global, span: Span, kind: ExprKind) -> Result<Part, ReadFault>
    ensures { GivesNext result (node span kind) }
{
    let tree = Boxed::new(alloc, Expr { span, kind })?;
    Ok(Part { tree, span })
}

/// The two parts, joined by the operator between them.
pub fn binary(alloc: Global, operator: Operator, left: Part, right: Part) -> Result<Part, ReadFault>
    ensures { GivesNext result (joined operator left right) }
{
    let span = across(left.span, right.span);
    let kind = ExprKind::Binary(operator, left.into_boxed(), right.into_boxed());
    bare(alloc, span, kind)
}

/// The negation of a part by the `!` that stands at `first`.
pub fn opposite(alloc: Global, first: Span, inner: Part) -> Result<Part, ReadFault>
    ensures { GivesNext result (negated first inner) }
{
    let Part { tree, span } = inner;
    bare(alloc, across(first, span), ExprKind::Not(tree))
}

/// A part with the sign that stands at `first`.
pub fn negative(alloc: Global, first: Span, inner: Part) -> Result<Part, ReadFault>
    ensures { GivesNext result (signed first inner) }
{
    let Part { tree, span } = inner;
    bare(alloc, across(first, span), ExprKind::Minus(tree))
}

/// A part in the parentheses that stand at `first` and `last`.
pub fn widened(first: Span, last: Span, inner: Part) -> Part
    ensures { result ≡ widened_of first last inner }
{
    Part {
        tree: inner.into_boxed(),
        span: across(first, last),
    }
}

/// A field of what the receiver is.
pub fn field(alloc: Global, receiver: Part, word: Word) -> Result<Part, ReadFault>
    ensures { GivesNext result (field_of receiver word) }
{
    let Part { tree, span } = receiver;
    bare(alloc, across(span, word.span), ExprKind::Field(tree, word))
}

/// An element of an array. The bracket behind the index stands at `last`.
pub fn element(alloc: Global, array: Part, index: Part, last: Span) -> Result<Part, ReadFault>
    ensures { GivesNext result (element_of array index last) }
{
    let Part { tree, span } = array;
    let kind = ExprKind::Index(tree, index.into_boxed());
    bare(alloc, across(span, last), kind)
}

/// A chain as an expression.
pub fn part_of(alloc: Global, chain: Chain) -> Result<Part, ReadFault>
    ensures { GivesNext result (part_of_chain chain) }
{
    match chain {
        Chain::Named(receiver, word) => match receiver {
            Some(part) => field(alloc, part, word),
            None => bare(alloc, word.span, ExprKind::Var(word)),
        },
        Chain::Other(part) => Ok(part),
    }
}

/// Where the name behind a receiver, if it has one, begins.
pub fn start_of(receiver: &Option<Part>, word: Word) -> Span
    ensures { result ≡ start_of receiver.now word }
{
    match receiver {
        Some(part) => part.span,
        None => word.span,
    }
}

/// A predicate's instance. The bracket behind the arguments stands at `last`.
pub fn instance(
    alloc: Global,
    receiver: Option<Part>,
    word: Word,
    args: Args,
    last: Span,
) -> Result<Part, ReadFault>
    ensures { GivesNext result (instance_of receiver word args last) }
{
    let span = across(start_of(&receiver, word), last);
    match receiver {
        Some(part) => {
            let kind = ExprKind::Instance(Some(part.into_boxed()), word, args);
            bare(alloc, span, kind)
        }
        None => bare(alloc, span, ExprKind::Instance(None, word, args)),
    }
}

/// What a part was before, from the word at `first` to the bracket at `last`.
pub fn old(alloc: Global, first: Span, inner: Part, last: Span) -> Result<Part, ReadFault>
    ensures { GivesNext result (old_of first inner last) }
{
    let kind = ExprKind::Old(inner.into_boxed());
    bare(alloc, across(first, last), kind)
}

/// A permission, from the word at `first` to the bracket at `last`.
pub fn permission(
    alloc: Global,
    first: Span,
    inner: Part,
    amount: Amount,
    last: Span,
) -> Result<Part, ReadFault>
    ensures { GivesNext result (perm_of first inner amount last) }
{
    let tree = inner.into_boxed();
    let kind = ExprKind::Perm(tree, amount.parts, amount.whole, amount.span);
    bare(alloc, across(first, last), kind)
}

/// A token of a thread or of a lock, from the word at `first` to the bracket at `last`.
pub fn held(
    alloc: Global,
    token: Token,
    first: Span,
    inner: Part,
    last: Span,
) -> Result<Part, ReadFault>
    ensures { GivesNext result (token_part token first inner last) }
{
    let kind = ExprKind::Token(token, inner.into_boxed());
    bare(alloc, across(first, last), kind)
}

/// A quantified formula in the brackets at `first` and `last`.
pub fn each(
    alloc: Global,
    star: bool,
    first: Span,
    name: Word,
    bounds: Bounds,
    body: Part,
    last: Span,
) -> Result<Part, ReadFault>
    ensures { GivesNext result (each_of star first name bounds body last) }
{
    let Bounds { low, high, written } = bounds;
    let each = Each {
        star,
        name,
        low: low.into_boxed(),
        high: high.into_boxed(),
        body: body.into_boxed(),
        written,
    };
    bare(alloc, across(first, last), ExprKind::Each(each))
}
