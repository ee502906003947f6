ghost use Rattle.std.specs.Prelude.{◌≡◌, ◌↔◌, Option, Some, None, List, []};
ghost use Rattle.pv_ast.specs.Rules.Shapes as shapes;
ghost use Rattle.pv_ast.specs.declared.fault.ShapeFault.{ShapeFault as Fault};

use pv_ast::ShapeFault;

fn start_of(fault: ShapeFault) -> u32
    ensures { result ≡ shapes.start_of fault }
{
    match fault {
        ShapeFault::QuantifierShape(span) => span.from,
        ShapeFault::ItemShape(span) => span.from,
    }
}

/// Of two faults the one that starts first; on a tie the one on the left.
pub(crate) fn earlier(a: Option<ShapeFault>, b: Option<ShapeFault>) -> Option<ShapeFault>
    ensures { result ≡ shapes.earlier a b }
{
    match (a, b) {
        (None, b) => b,
        (Some(a), None) => Some(a),
        (Some(a), Some(b)) => {
            if start_of(b) < start_of(a) {
                Some(b)
            } else {
                Some(a)
            }
        }
    }
}

/// The law of the first fault: there is none exactly where there are no faults, and the one that there is starts before all
/// that stand before it in the list, and not after any that stands behind it.
pub fn first_starts_first()
    ensures none { (faults : List Fault) → (shapes.first_of faults ≡ None) ↔ (faults ≡ []) }
    ensures first { (faults : List Fault) (fault : Fault) → shapes.first_of faults ≡ Some fault → shapes.IsFirst fault faults }
{}
