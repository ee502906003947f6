//! Where a statement stands.
ghost use Rattle.std.specs.Prelude.{◌≡◌, IfOk};
ghost use Rattle.pv_plain.specs.Sites.{way_of, way_under};

use crate::sending::Sent;
use pv_base::{Name, NoMemory};
use pv_types::visible::Mark;
use sqlite_items::Items;
use std::alloc::Global;

/// The way through a method to a statement: its place in its block, and the way to that block.
#[cycle(way)]
#[derive(Clone, Copy, Drop)]
pub(crate) struct Way<'a> {
    pub index: u64,
    pub outer: Option<&'a Way<'a>>,
}

/// Where a statement stands: the loop variable of the innermost par block, the names at the head of the innermost counted loop's
/// body and the messages that are sent in it, and the way to the statement.
#[derive(Clone, Copy, Drop)]
pub(crate) struct Site<'a> {
    pub position: Name,
    pub head: Mark,
    pub sent: &'a [Sent<'a>],
    pub way: Option<&'a Way<'a>>,
}

/// The way as a list, from the outermost block on.
fn listed_under(alloc: Global, way: &Way) -> Result<Items<u64>, NoMemory>
    ensures { IfOk result (λ steps. steps ≡ way_under way.now) }
{
    let mut steps = match way.outer {
        None => Items::new(alloc),
        Some(outer) => listed_under(alloc, outer)?,
    };
    steps.push(way.index)?;
    Ok(steps)
}

pub(crate) fn listed(alloc: Global, way: Option<&Way>) -> Result<Items<u64>, NoMemory>
    ensures { IfOk result (λ steps. steps ≡ way_of way.entry) }
{
    match way {
        None => Ok(Items::new(alloc)),
        Some(inner) => listed_under(alloc, inner),
    }
}
