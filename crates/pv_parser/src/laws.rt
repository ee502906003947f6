//! Laws of the programs that tokens spell, of which calls are made: each function proves its clauses, and answers nothing.
ghost use Rattle.std.specs.Prelude.{◌≤◌, ◌<◌, ◌^◌, ◌≡◌, List, Option, All, length};
ghost use Rattle.pv_base.specs.declared.Name.{Name};
ghost use Rattle.pv_tokens.specs.declared.Lexeme.{Lexeme};
ghost use Rattle.pv_tokens.specs.Lexemes.{AreWithin};
ghost use Rattle.pv_ast.specs.declared.Program.{Program};
ghost use Rattle.pv_ast.specs.Measures.{literals_of_program};
ghost use Rattle.pv_ast.specs.Rules.WellFormed.{above_numbers};
ghost use Rattle.pv_ast.specs.Rules.Numbers.{numbers_of_program};
ghost use Rattle.pv_reading.specs.Spelled.{Spells, SpellsWithin, most_open};
ghost use Rattle.pv_parser.specs.Grammar.{IsProgram};

/// Tokens spell at most one program, at whatever depth.
pub fn one_tree()
    ensures { (lexemes : List Lexeme) (length : Option Name) (a b : Program)
        → Spells (IsProgram length) lexemes a → Spells (IsProgram length) lexemes b → a ≡ b }
{}

/// No more numbers are written in a program than it has tokens, and where no number of the tokens is too great, none in the program
/// is.
pub fn few_literals()
    ensures few { (length_name : Option Name) (tokens : List Lexeme) (p : Program)
        → SpellsWithin (IsProgram length_name) most_open tokens p → literals_of_program p ≤ length tokens }
    ensures small { (length_name : Option Name) (tokens : List Lexeme) (p : Program)
        → SpellsWithin (IsProgram length_name) most_open tokens p → AreWithin tokens → All (λ n. n < above_numbers) (numbers_of_program p) }
{}
