use crate::PvType;

/// The type of an expression: none yet where a name in it isn't declared or a part of it is wrong; none at all; or a type.
#[derive(Clone, Copy, Debug, PartialEq, Eq, Drop)]
pub enum Typing {
    Unsettled,
    Untyped,
    Typed(PvType),
}

/// What the rules ask of an expression: its type; whether it is `this`, a field or an element, and whether a local variable
/// stands in it.
#[derive(Clone, Copy, Debug, PartialEq, Eq, Drop)]
pub struct Seen {
    pub typing: Typing,
    pub this: bool,
    pub location: bool,
    pub local: bool,
}

/// Which type is needed of a part.
#[derive(Clone, Copy, Debug, PartialEq, Eq, Drop)]
pub enum Need {
    Anything,
    Exactly(PvType),
    AnObject,
    AnArray,
    AnObjectOrArray,
}

/// What may stand in an expression where it stands: only what is pure, `\result`, `\old`, and the locals of the block's body.
#[derive(Clone, Copy, Debug, PartialEq, Eq, Drop)]
pub struct Context {
    pub pure: bool,
    pub result: bool,
    pub old: bool,
    pub locals: bool,
}

/// What stands innermost around a statement: the body of a method or of `run`, a par block, or a counted loop.
#[derive(Clone, Copy, Debug, PartialEq, Eq, Drop)]
pub enum Surround {
    Body,
    Block,
    Loop,
}

/// Where a statement stands: in a method or in `run`; in which body, in some counted loop, and in a `while` of that body; and
/// as the last statement of the whole body.
#[derive(Clone, Copy, Debug, PartialEq, Eq, Drop)]
pub struct StatementContext {
    pub method: bool,
    pub surround: Surround,
    pub looped: bool,
    pub repeated: bool,
    pub last: bool,
}
