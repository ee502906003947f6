use pv_base::Span;

/// The static rules, in the order in which the least is named where several are broken at one start.
#[derive(Clone, Copy, Debug, PartialEq, Eq, Drop)]
pub enum Rule {
    /// A class, variable, field, method, predicate, block or message label that isn't declared for its use.
    UnknownName,
    /// A class, or a member of one class, with an earlier one's name; a second `run`.
    Duplicate,
    /// A parameter, local, loop variable, bound variable or block name equal to one in scope.
    Shadows,
    /// An expression whose parts are as they must be, but which itself has no type or not the one that is needed.
    WrongType,
    /// Another number of arguments than parameters.
    WrongCount,
    /// A permission, a token, an instance or `\forall*` where a truth value is needed.
    NotPure,
    /// A method with a result type whose last statement isn't a `return` with a value.
    NoReturn,
    /// A `return` that isn't the last statement of a method's body, or not of its kind.
    ReturnPlace,
    /// `\result` outside the `ensures` of a method with a result type.
    ResultPlace,
    /// `\old` where there is no old state to read, or of an expression with a local variable.
    OldPlace,
    /// Assignment to what can't be assigned there.
    NotAssignable,
    /// A first part of `Perm` that is no field and no array element.
    NotALocation,
    /// An amount a\b without 1 <= a <= b <= 40.
    BadFraction,
    /// A thread's or lock's use of a class that has no `run` or no lock invariant.
    NoRole,
    /// A barrier of an enclosing block that isn't the innermost.
    BarrierPlace,
    /// A statement that may not stand in a counted loop's body.
    BodyForm,
    /// A message outside a counted loop's body, or inside a `while` there.
    MessagePlace,
    /// A message of distance 0, or a second one of its kind and label in one loop.
    MessageRule,
    /// A barrier's contract or a message's formula that names a variable of the block's body.
    FormulaScope,
    /// A name in the second form of bounds that isn't the bound variable.
    RangeName,
}

/// A broken rule, and where.
#[derive(Clone, Copy, Debug, PartialEq, Eq, Drop)]
pub struct Fault {
    pub rule: Rule,
    pub span: Span,
}

/// A part that has no shape of an item, and where.
#[derive(Clone, Copy, Debug, PartialEq, Eq, Drop)]
pub enum ShapeFault {
    /// A quantifier in a wrong place, or a part of a quantifier's body that is no item.
    QuantifierShape(Span),
    /// A part of a clause of a block, loop or barrier, or of a message, that is no item.
    ItemShape(Span),
}
