//! Laws of the types of well formed programs: each is a function that proves its clause and answers nothing.
#![tactic(auto)]

ghost use Rattle.pv_ast.specs.declared.Program.{Program};
ghost use Rattle.pv_ast.specs.Rules.WellFormed.{IsWellFormed};
ghost use Rattle.pv_picks.specs.Machine.Safety.{IsReached};
ghost use Rattle.pv_picks.specs.Machine.Starts.{field_kind};
ghost use Rattle.pv_picks.specs.Machine.Worlds.{World};
ghost use Rattle.pv_picks.specs.Elaborating.Programs.{core_of};
ghost use Rattle.pv_picks.specs.Typing.Heaps.{IsTypedHeap};
ghost use Rattle.pv_picks.specs.Typing.Blocks.{ProgramFits};
ghost use Rattle.core_trees.specs.Formulas.{FormulasFit};
ghost use Rattle.core_trees.specs.Throughout.{IsTypedThroughout};

/// What a well formed program becomes is well typed: its methods and each `run`.
pub fn well_formed_programs_are_typed()
    ensures { (p : Program) → IsWellFormed p → ProgramFits (core_of p) }
{}

/// Each formula of what a well formed program becomes is well typed: in contracts, predicates, lock invariants and statements.
pub fn formulas_of_well_formed_programs_are_typed()
    ensures { (p : Program) → IsWellFormed p → FormulasFit (core_of p) }
{}

/// In what a well formed program becomes, all that is found by its name is well typed, with its formulas: fields have types that are
/// declared; predicates, methods and each `run` speak of their parameters, a method's `ensures` of its result too, and lock invariants
/// of fields alone. Terms that are read once for all positions are typed without the position; amounts are of at least one unit and
/// at most the whole; what is folded, called, forked, locked or spoken of by a token is declared.
pub fn well_formed_programs_are_typed_throughout()
    ensures { (p : Program) → IsWellFormed p → IsTypedThroughout (core_of p) }
{}

/// On the machine the heap of each world that a well formed program reaches is well typed: a step keeps it so.
pub fn well_formed_programs_keep_heaps_typed()
    ensures { (p : Program) → IsWellFormed p → (w : World) → IsReached (core_of p) w → IsTypedHeap (field_kind (core_of p)) w.heap }
{}
