use sqlite_items::Items;

/// Which part of a class is verified: its lock invariant, or the member at a place, counted from 0.
#[derive(Clone, Copy, Debug, PartialEq, Eq, Drop)]
pub enum Part {
    LockInvariant,
    Member(u32),
}

/// A unit of verification: the class at a place, counted from 0, and a part of it.
#[derive(Clone, Copy, Debug, PartialEq, Eq, Drop)]
pub struct PvUnit {
    pub class: u32,
    pub part: Part,
}

/// Units in the order of the text.
pub type Units = Items<PvUnit>;
