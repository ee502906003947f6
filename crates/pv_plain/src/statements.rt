//! What statements become.
ghost use Rattle.std.specs.Prelude.{◌≡◌, ◌≤◌, length, map, Some, IfOk, OnOk};
ghost use Rattle.pv_ast.specs.declared.scope.Declaration.TheVariants as how;
ghost use Rattle.pv_ast.specs.declared.PvType.TheVariants as pv;
ghost use Rattle.pv_ast.specs.Rules.Scoping as scoping;
ghost use Rattle.pv_ast.specs.Rules.Statements.{with_loop_variable, with_block};
ghost use Rattle.pv_picks.specs.Plain.Core as core;
ghost use Rattle.pv_picks.specs.Plain.Trees.{expression_of, statement_of, block_of, team_of};
ghost use Rattle.pv_picks.specs.Elaborating.Expressions.{core_of_expression};
ghost use Rattle.pv_picks.specs.Elaborating.Statements as elaborating;
ghost use Rattle.pv_picks.specs.Elaborating.Statements.{elaborated_statement, core_of_statement};
ghost use Rattle.pv_types.specs.Growth.{Extends};
ghost use Rattle.pv_types.specs.Environments.{environment_of};
ghost use Rattle.pv_plain.specs.Sights.{around, in_scope, marked};
ghost use Rattle.pv_plain.specs.Sites.{site_of, messages_of, way_of};

use crate::assigning::assigned;
use crate::contracts::{formulas, shared};
use crate::expressions::expression;
use crate::sending::{Sent, add_all_sent};
use crate::sight::Sight;
use crate::simple::{
    act, assert, assign, boxed, call_alone, fold, give_back, local, meet, receive, send, unfold,
};
use crate::site::{Site, Way};
use pv_ast::{Block as Body, Contract, Declaration, Declared, PvType, Range, Stmt, StmtKind, Word};
use pv_base::{Name, NoMemory, Span};
use pv_picks::plain::{Action, Block, Statement, Team};
use pv_types::environment::Environment;
use pv_types::visible::Visible;
use sqlite_items::{Boxed, Items};
use std::alloc::Global;

/// Brings the local of a declaration into scope.
pub(crate) fn declare_behind(s: &Stmt, visible: &mut Visible) -> Result<(), NoMemory>
    ensures behind { OnOk result (visible.new ≡ (elaborated_statement s.now).checked.behind visible.old) }
    ensures extends { OnOk result (Extends visible.old visible.new) }
{
    match &s.kind {
        StmtKind::Local(word, name, _) => {
            declare(Declaration::Local, name.name, word.kind, visible)
        }
        _ => Ok(()),
    }
}

/// Brings a variable into scope.
pub(crate) fn declare(
    how: Declaration,
    name: Name,
    kind: PvType,
    visible: &mut Visible,
) -> Result<(), NoMemory>
    ensures declared { OnOk result (visible.new ≡ scoping.declare_variable how visible.old name kind) }
    ensures extends { OnOk result (Extends visible.old visible.new) }
{
    let declared = Declared {
        declaration: how,
        kind,
    };
    visible.declare(name, declared)
}

/// The sight of a message: the names at the head of the innermost counted loop.
fn at_head<'a>(site: Site<'a>, environment: &'a Environment<'a>, visible: &'a Visible) -> Sight<'a>
    ensures around { around result ≡ environment_of environment.now }
    ensures scope { in_scope result ≡ marked visible.now site.entry.head }
{
    Sight {
        environment,
        visible,
        mark: site.head,
        bounds: None,
    }
}

/// The members of a par block or a counted loop, whose bounds are read outside and whose contract is read inside.
fn team(
    alloc: Global,
    counted: bool,
    range: &Range,
    contract: &Contract,
    outside: (
        Boxed<pv_picks::plain::Expression>,
        Boxed<pv_picks::plain::Expression>,
    ),
    inside: Sight,
) -> Result<Team, NoMemory>
    ensures { IfOk result (λ t. team_of t ≡ record { counted = counted; variable = range.now.name.name; low = expression_of outside.0; high = expression_of outside.1; shared = elaborating.core_of_shared range.now.name.name (around inside.entry) (in_scope inside.entry) contract.now }) }
{
    let (low, high) = outside;
    let shared = shared(alloc, contract, range.name.name, inside)?;
    Ok(Team {
        counted,
        variable: range.name.name,
        low: low.into_inner(),
        high: high.into_inner(),
        shared,
    })
}
