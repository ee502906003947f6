use crate::PvType;
use pv_base::Name;
use sqlite_items::Items;

/// A variable in scope.
#[derive(Clone, Copy, Debug, PartialEq, Eq, Drop)]
pub struct ScopeVar {
    pub name: Name,
    pub kind: PvType,
}

/// Variables in scope. Where two have one name, the first counts.
pub type ScopeVars = Items<ScopeVar>;

/// Where an expression stands: the variables in scope, the class of `this`, and the type of `\result`.
#[derive(Drop)]
pub struct Scope {
    pub vars: ScopeVars,
    pub class: Name,
    pub result: Option<PvType>,
}

/// How a name came into scope. A block's name is in scope so that no variable takes it, and means no variable.
#[derive(Clone, Copy, Debug, PartialEq, Eq, Drop)]
pub enum Declaration {
    Parameter,
    Local,
    LoopVariable,
    Bound,
    Block,
}

/// What a name in scope stands for: how it was declared, and the type of a variable.
#[derive(Clone, Copy, Debug, PartialEq, Eq, Drop)]
pub struct Declared {
    pub declaration: Declaration,
    pub kind: PvType,
}
