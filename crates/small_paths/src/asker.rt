//! Who answers the questions of a symbolic run.

ghost use Rattle.std.specs.Prelude.{◌≡◌, ◌≤ℤ◌, ◌↔◌, IsTrue, IfOk, OnOk, ◌^◌};
ghost use Rattle.pv_linear.specs.Values.{Values, term_value, IsWithin};
ghost use Rattle.pv_linear.specs.Literal.{IsBounded, Holds, opposite};
ghost use Rattle.small_paths.specs.Asking.{Asks, Under};
ghost use Rattle.small_paths.specs.Parts.{literal_of};

use crate::Difference;
use pv_base::NoMemory;
use pv_linear::{Literal, Shape, Term, at_most};

/// Answers questions along one path. What is known of a run is known of the values that follow its path.
pub trait Asker {
    ghost use Rattle.pv_linear.specs.Values.{Values};

    /// The values follow the path.
    ghost follows: { Self → Values → Type 0 };

    /// The values lie in some part of what is still to be walked, the path included.
    ghost stands: { Self → Values → Type 0 };

    /// Whether the difference holds, of all values that follow the path then. After a refusal the run is given up.
    fn ask(&mut self, question: Difference) -> Result<bool, NoMemory>
        requires bound { IsBounded (2 ^ 100) (literal_of question) }
        requires opposite { IsBounded (2 ^ 100) (opposite (literal_of question)) }
        ensures asks { OnOk result (Asks follows stands self.old self.new) }
        ensures says { IfOk result (λ told. Under follows self.new (λ v. IsTrue told ↔ Holds v (literal_of question))) };
}

/// Whether `a <= b`.
pub fn ask_at_most<K: Asker>(a: Term, b: Term, asker: &mut K) -> Result<bool, NoMemory>
    requires first { IsWithin (2 ^ 98) a.plus }
    requires second { IsWithin (2 ^ 98) b.plus }
    ensures asks { OnOk result (Asks K.follows K.stands asker.old asker.new) }
    ensures says { IfOk result (λ told. Under K.follows asker.new (λ v. IsTrue told ↔ (term_value v a ≤ℤ term_value v b))) }
{
    if a.symbol == b.symbol {
        return Ok(a.plus <= b.plus);
    }
    let question = Difference {
        x: a.symbol,
        y: b.symbol,
        bound: b.plus - a.plus,
    };
    let told = asker.ask(question)?;
    Ok(told)
}
