//! What contracts become.
ghost use Rattle.std.specs.Prelude.{◌≡◌, Bool, map, IfOk};
ghost use Rattle.pv_picks.specs.Plain.Trees.{formula_of, items_of, contract_of, shared_of};
ghost use Rattle.pv_picks.specs.Elaborating.Expressions.{core_of_formula};
ghost use Rattle.pv_picks.specs.Elaborating.Statements.{formulas_at, core_of_all_items, core_of_contract, core_of_shared};
ghost use Rattle.pv_plain.specs.Clauses.{stands as stands_at, items_where};
ghost use Rattle.pv_plain.specs.Sights.{around, in_scope};

use crate::formulas::{formula, items};
use crate::sight::Sight;
use pv_ast::{Clause, ClauseKind, Contract as Clauses, Expr};
use pv_base::{Name, NoMemory};
use pv_picks::plain::{Contract, Formulas, Item, Shared};
use sqlite_items::Items;
use std::alloc::Global;

/// Whether a clause stands in the precondition, or else in the postcondition.
fn stands(kind: ClauseKind, before: bool) -> bool
    ensures { result ≡ stands_at before kind }
{
    match kind {
        ClauseKind::Requires => before,
        ClauseKind::Ensures => !before,
        ClauseKind::Context => true,
    }
}

/// What formulas become, one behind the other.
pub(crate) fn formulas(alloc: Global, es: &[Expr], sight: Sight) -> Result<Formulas, NoMemory>
    ensures { IfOk result (λ fs. map formula_of fs ≡ map (core_of_formula (around sight.entry) (in_scope sight.entry)) es.now) }
{
    let mut all = Items::new(alloc);
    for e in es {
        let each = formula(alloc, e, None, sight)?;
        all.push(each.into_inner())?;
    }
    Ok(all)
}

/// A precondition or a postcondition.
fn condition(
    alloc: Global,
    clauses: &[Clause],
    before: bool,
    sight: Sight,
) -> Result<Formulas, NoMemory>
    ensures { IfOk result (λ fs. map formula_of fs ≡ map (core_of_formula (around sight.entry) (in_scope sight.entry)) (formulas_at (stands_at before) clauses.now)) }
{
    let mut all = Items::new(alloc);
    for clause in clauses {
        if stands(clause.kind, before) {
            let each = formula(alloc, &clause.formula, None, sight)?;
            all.push(each.into_inner())?;
        }
    }
    Ok(all)
}

/// What a contract becomes: that of a method, or of one position.
pub(crate) fn contract(
    alloc: Global,
    contract: &Clauses,
    sight: Sight,
) -> Result<Contract, NoMemory>
    ensures { IfOk result (λ c. contract_of c ≡ core_of_contract (around sight.entry) (in_scope sight.entry) contract.now) }
{
    let clauses = contract.clauses.as_slice();
    let before = condition(alloc, clauses, true, sight)?;
    let after = condition(alloc, clauses, false, sight)?;
    Ok(Contract { before, after })
}

/// The items of a clause, where it stands there.
fn clause_items(
    alloc: Global,
    clause: &Clause,
    before: bool,
    name: Name,
    sight: Sight,
) -> Result<Items<Item>, NoMemory>
    ensures { IfOk result (λ is. items_of is ≡ items_where (stands_at before clause.now.kind) name (around sight.entry) (in_scope sight.entry) clause.now.formula) }
{
    if stands(clause.kind, before) {
        items(alloc, &clause.formula, name, None, sight)
    } else {
        Ok(Items::new(alloc))
    }
}

/// A precondition or a postcondition, item by item.
fn item_condition(
    alloc: Global,
    clauses: &[Clause],
    before: bool,
    name: Name,
    sight: Sight,
) -> Result<Items<Item>, NoMemory>
    ensures { IfOk result (λ is. items_of is ≡ core_of_all_items name (around sight.entry) (in_scope sight.entry) (formulas_at (stands_at before) clauses.now)) }
{
    let mut all = Items::new(alloc);
    for clause in clauses {
        let each = clause_items(alloc, clause, before, name, sight)?;
        all.append(each)?;
    }
    Ok(all)
}

/// What a contract becomes that members keep.
pub(crate) fn shared(
    alloc: Global,
    clauses: &Clauses,
    name: Name,
    sight: Sight,
) -> Result<Shared, NoMemory>
    ensures { IfOk result (λ s. shared_of s ≡ core_of_shared name (around sight.entry) (in_scope sight.entry) clauses.now) }
{
    let one = contract(alloc, clauses, sight)?;
    let clauses = clauses.clauses.as_slice();
    let each_before = item_condition(alloc, clauses, true, name, sight)?;
    let each_after = item_condition(alloc, clauses, false, name, sight)?;
    Ok(Shared {
        one,
        each_before,
        each_after,
    })
}
