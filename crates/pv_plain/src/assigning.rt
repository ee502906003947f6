//! The variables that statements assign.
ghost use Rattle.std.specs.Prelude.{◌≡◌, ◌++◌, map, IfOk, OnOk};
ghost use Rattle.std.specs.Option.{option_to_list};
ghost use Rattle.pv_picks.specs.Plain.Trees.{parameters_of};
ghost use Rattle.pv_picks.specs.Elaborating.Names.{variable_in};
ghost use Rattle.pv_picks.specs.Elaborating.Statements.{elaborated_statement, assigned_in, name_of_kind, variables_among};
ghost use Rattle.pv_plain.specs.Sights.{in_scope};

use crate::sight::Sight;
use pv_ast::{ExprKind, Stmt, StmtKind};
use pv_base::{Name, NoMemory};
use pv_picks::plain::{Parameter, Parameters};
use pv_types::sets::NameSet;
use sqlite_items::Items;
use std::alloc::Global;

/// Adds the names that a statement assigns, in order.
#[cycle(assigned)]
fn add_assigned(names: &mut Vec<Name>, s: &Stmt) -> Result<(), NoMemory>
    ensures { OnOk result (names.new.items ≡ names.old.items ++ (elaborated_statement s.now).assigned) }
{
    match &s.kind {
        StmtKind::Assign(place, _) => add_name(names, &place.kind),
        StmtKind::If(_, first, second) => {
            add_all_assigned(names, first.as_slice())?;
            add_all_assigned(names, second.as_slice())
        }
        StmtKind::While(_, _, body) => add_all_assigned(names, body.as_slice()),
        StmtKind::For(_, _, body) => add_all_assigned(names, body.as_slice()),
        StmtKind::Par(_, _, _, body) => add_all_assigned(names, body.as_slice()),
        _ => Ok(()),
    }
}

/// Adds the name that a left side is, if it is one.
fn add_name(names: &mut Vec<Name>, kind: &ExprKind) -> Result<(), NoMemory>
    ensures { OnOk result (names.new.items ≡ names.old.items ++ name_of_kind kind.now) }
{
    match kind {
        ExprKind::Var(word) => {
            names.push(word.name)?;
            Ok(())
        }
        _ => Ok(()),
    }
}

/// Adds the names that statements assign, in order.
#[cycle(assigned)]
fn add_all_assigned(names: &mut Vec<Name>, body: &[Stmt]) -> Result<(), NoMemory>
    ensures { OnOk result (names.new.items ≡ names.old.items ++ assigned_in (map elaborated_statement body.now)) }
{
    for each in body {
        add_assigned(names, each)?;
    }
    Ok(())
}

/// Adds the variable that a name means, if it means one.
fn add_variable(all: &mut Parameters, name: Name, sight: Sight) -> Result<(), NoMemory>
    ensures { OnOk result (parameters_of all.new ≡ parameters_of all.old ++ option_to_list (variable_in (in_scope sight.entry) name)) }
{
    match sight.variable(name) {
        Some(found) => {
            all.push(Parameter {
                name,
                kind: found.kind,
            })?;
            Ok(())
        }
        None => Ok(()),
    }
}

/// The variables in scope among names, each once, in the order of their first places.
fn variables_of(alloc: Global, names: &[Name], sight: Sight) -> Result<Parameters, NoMemory>
    ensures { IfOk result (λ ps. parameters_of ps ≡ variables_among (in_scope sight.entry) names.now) }
{
    let mut seen = NameSet::new(alloc);
    let mut all = Items::new(alloc);
    for name in names {
        if seen.insert(*name)? {
            add_variable(&mut all, *name, sight)?;
        }
    }
    Ok(all)
}

/// The variables in scope that statements assign.
pub(crate) fn assigned(alloc: Global, body: &[Stmt], sight: Sight) -> Result<Parameters, NoMemory>
    ensures { IfOk result (λ ps. parameters_of ps ≡ variables_among (in_scope sight.entry) (assigned_in (map elaborated_statement body.now))) }
{
    let mut names = Vec::new(alloc);
    add_all_assigned(&mut names, body)?;
    variables_of(alloc, names.as_slice(), sight)
}
