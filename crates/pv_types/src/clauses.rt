ghost use Rattle.std.specs.Prelude.{◌≡◌, OnOk, if◌then◌else◌};
ghost use Rattle.pv_ast.specs.Rules.Faults.{least};
ghost use Rattle.pv_ast.specs.Rules.Statements as stated;
ghost use Rattle.pv_types.specs.Environments.{environment_of};

use crate::Visible;
use crate::environment::Environment;
use crate::expressions::part;
use crate::site::Site;
use pv_ast::{Clause, ClauseKind, Context, Expr, Fault, Need, PvType};
use pv_base::NoMemory;

/// Notes the faults of a formula.
pub(crate) fn formula(
    e: &Expr,
    environment: &Environment,
    context: Context,
    visible: &mut Visible,
    first: &mut Option<Fault>,
) -> Result<(), NoMemory>
    ensures found { OnOk result (first.new ≡ least first.old (stated.faults_of_formula (environment_of environment.now) visible.old context e.now)) }
    ensures same { OnOk result (visible.new ≡ visible.old) }
{
    let a_truth = Need::Exactly(PvType::Truth);
    let site = Site {
        environment,
        context,
    };
    part(e, site, a_truth, visible, first)?;
    Ok(())
}

/// Notes the faults of formulas.
pub(crate) fn formulas(
    es: &[Expr],
    environment: &Environment,
    context: Context,
    visible: &mut Visible,
    first: &mut Option<Fault>,
) -> Result<(), NoMemory>
    ensures found { OnOk result (first.new ≡ least first.old (stated.faults_of_formulas (environment_of environment.now) visible.old context es.now)) }
    ensures same { OnOk result (visible.new ≡ visible.old) }
{
    for e in es {
        formula(e, environment, context, visible, first)?;
    }
    Ok(())
}

/// The context of a clause of such a kind.
fn context_of(kind: ClauseKind, in_ensures: Context, others: Context) -> Context
    ensures { result ≡ (if stated.is_ensures kind then in_ensures else others) }
{
    match kind {
        ClauseKind::Ensures => in_ensures,
        ClauseKind::Requires => others,
        ClauseKind::Context => others,
    }
}

/// Notes the faults of clauses, where an `ensures` stands in the first context and each other clause in the second.
pub(crate) fn clauses(
    clauses: &[Clause],
    environment: &Environment,
    in_ensures: Context,
    others: Context,
    visible: &mut Visible,
    first: &mut Option<Fault>,
) -> Result<(), NoMemory>
    ensures found { OnOk result (first.new ≡ least first.old (stated.faults_of_clauses (environment_of environment.now) visible.old in_ensures others clauses.now)) }
    ensures same { OnOk result (visible.new ≡ visible.old) }
{
    for clause in clauses {
        let context = context_of(clause.kind, in_ensures, others);
        formula(&clause.formula, environment, context, visible, first)?;
    }
    Ok(())
}
