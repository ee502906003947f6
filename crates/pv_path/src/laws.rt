//! What is so of every path.

ghost use Rattle.std.specs.Prelude.{◌≡◌, ◌<◌, ◌∷◌, [], ◌++◌, List, length};
ghost use Rattle.pv_linear.specs.declared.Literal.{Literal as Literals};
ghost use Rattle.pv_linear.specs.Values.{Values};
ghost use Rattle.pv_linear.specs.Literal.{Meets, opposite};
ghost use Rattle.pv_linear.specs.Evidence.{Evidence, evidence_of, CanBeMet, Follows, IsLong};
ghost use Rattle.pv_linear.specs.Decisions.{Decision, fact, Agrees, AllBelow, AreNumbered, literals_in, turns_in};
ghost use Rattle.pv_path.specs.Branches.{Among};
ghost use Rattle.pv_path.specs.Standing.{AllApart, CanStand, IsSideOf};
ghost use Rattle.pv_path.specs.Paths.{path_of, turns_of, decisions, open_sides, parts, ended};

use crate::path::Path;

/// The path can be met, and what agrees with its decisions follows it, whatever turns were taken. In each part something
/// stands, and nothing stands in two. Each open side is the decisions up to one of them, with the other answer or a later turn.
pub fn parts_stand(path: &Path)
    ensures met { CanBeMet (path_of path.now) }
    ensures follows { (e : Evidence) → Agrees e (decisions path.now) → Follows (path_of path.now) (turns_of path.now) e }
    ensures stand { (part : List Decision) → Among (parts path.now) part → CanStand part }
    ensures sides { (part : List Decision) → Among (open_sides path.now) part → IsSideOf (decisions path.now) part }
    ensures apart { AllApart (parts path.now) }
{
    let _path = path;
}

/// With the other answer of each literal among the decisions something stands. Values that meet those literals agree with the
/// decisions, with the turns among these, which are below 3. A path that is so long that a question may find no place on it has
/// 65,536 literals among its decisions, and fewer paths than that have ended.
pub fn opposites_stand(path: &Path)
    ensures stand { (xs ys : List Decision) (l : Literals) → decisions path.now ≡ xs ++ fact l ∷ ys → CanStand (xs ++ fact (opposite l) ∷ []) }
    ensures agrees { (v : Values) → Meets v (literals_in (decisions path.now)) → Agrees (evidence_of v (turns_in (decisions path.now))) (decisions path.now) }
    ensures numbered { AreNumbered 0 (decisions path.now) }
    ensures below { AllBelow (turns_in (decisions path.now)) }
    ensures long { IsLong (path_of path.now) → length (literals_in (decisions path.now)) ≡ 65536 }
    ensures few { ended path.now < 65536 }
{
    let _path = path;
}
