use pv_ast::Operator;
use sqlite_items::Items;

/// A value of a step map from a position on.
#[derive(Clone, Copy, Debug, PartialEq, Eq, Drop)]
pub struct StepPair {
    pub at: i128,
    pub value: i128,
}

/// A number for each position: that of the greatest listed position at or below it, and 0 where there is none.
pub type StepMap = Items<StepPair>;

/// What a run takes where its unit leaves a choice: a number, a turn (0 in, 1 frame, 2 past), or a number for each position.
/// References are numbers, and a truth value is a number, true from 1 on.
#[derive(Debug, Drop)]
pub enum Pick {
    Number(i128),
    Turn(u32),
    Steps(StepMap),
}

/// Picks in the order in which a run takes them.
pub type Picks = Items<Pick>;

/// An operation on two numbers, `Add`, `Sub` or `Mul`, and what a run takes for its value.
#[derive(Clone, Copy, Debug, PartialEq, Eq, Drop)]
pub struct Entry {
    pub op: Operator,
    pub left: i128,
    pub right: i128,
    pub taken: i128,
}

/// Values of operations that runs don't work out.
pub type Table = Items<Entry>;

/// All that a run of the judge depends on besides its unit. A contract sees numbers without bound.
#[derive(Debug, Drop)]
pub struct Evidence {
    pub picks: Picks,
    pub table: Table,
}
