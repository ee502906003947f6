//! What small programs mean: the sorts of their expressions, their values, the machine that runs them, the grounds of
//! verdicts, and the rules that they keep. Small programs have classes of methods over whole numbers, without loops and calls.
#![tactic(auto)]

ghost use Rattle.pv_ast.specs.declared.Program.{Program};
ghost use Rattle.small_meaning.specs.Grounds.{NoRunFails};
ghost use Rattle.small_meaning.specs.Machine.{IsSafe};

/// Where no run of any method fails on arguments that meet its precondition, the program is safe: its machine never comes to
/// stand at a wrong step.
pub fn safe_where_no_run_fails()
    ensures { (p : Program) → NoRunFails p → IsSafe p }
{}
