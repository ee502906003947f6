//! The messages that are sent in a counted loop.
ghost use Rattle.std.specs.Prelude.{◌≡◌, ◌++◌, map, OnOk};
ghost use Rattle.pv_ast.specs.Rules.Scoping.{Visible};
ghost use Rattle.pv_ast.specs.Rules.Expressions.{Environment};
ghost use Rattle.pv_picks.specs.Elaborating.Statements.{elaborated_statement, sent_in};

use pv_ast::{Expr, Stmt, StmtKind};
use pv_base::{Name, NoMemory};

/// What a `send` sends: under which label, to which distance, and the formula at the sender's position.
#[derive(Clone, Copy, Drop)]
pub(crate) struct Sent<'a> {
    pub label: Name,
    pub distance: u64,
    pub formula: &'a Expr,
}

ghost use Rattle.pv_plain.specs.Sites.{messages_of};

/// Adds what a statement sends. A counted loop inside has messages of its own.
#[cycle(sent)]
fn add_sent<'a>(sent: &mut Vec<Sent<'a>>, s: &'a Stmt) -> Result<(), NoMemory>
    ensures { OnOk result ((a : Environment) (v : Visible) → messages_of a v sent.new.items ≡ messages_of a v sent.old.items ++ (elaborated_statement s.now).sent a v) }
{
    match &s.kind {
        StmtKind::If(_, first, second) => {
            add_all_sent(sent, first.as_slice())?;
            add_all_sent(sent, second.as_slice())
        }
        StmtKind::While(_, _, body) => add_all_sent(sent, body.as_slice()),
        StmtKind::Par(_, _, _, body) => add_all_sent(sent, body.as_slice()),
        StmtKind::Send(label, distance, formula) => {
            sent.push(Sent {
                label: label.name,
                distance: *distance,
                formula,
            })?;
            Ok(())
        }
        _ => Ok(()),
    }
}

/// Adds what statements send.
#[cycle(sent)]
pub(crate) fn add_all_sent<'a>(sent: &mut Vec<Sent<'a>>, body: &'a [Stmt]) -> Result<(), NoMemory>
    ensures { OnOk result ((a : Environment) (v : Visible) → messages_of a v sent.new.items ≡ messages_of a v sent.old.items ++ sent_in (map elaborated_statement body.now) a v) }
{
    for each in body {
        add_sent(sent, each)?;
    }
    Ok(())
}
