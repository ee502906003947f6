//! Who answers the questions of a symbolic run.

ghost use Rattle.std.specs.Prelude.{◌≡◌, ◌<◌, ◌+◌, ◌^◌, [], ◌∷◌, ◌++◌, length, IfOk, IfErr, OnOk, OnErr};
ghost use Rattle.pv_linear.specs.declared.asker.AskFault.TheVariants.{NoMemory as NoMemoryFault};
ghost use Rattle.pv_linear.specs.Literal.{IsBounded, opposite};
ghost use Rattle.pv_linear.specs.Evidence.{Evidence, answered, MayAsk, IsLong, HasAllSymbols, OnFull};
ghost use Rattle.pv_linear.specs.Decisions.{Decision, Decides, DecidesTurn, AreTaken};

use crate::{Literal, Sort, Symbol};
use pv_base::NoMemory;
use std::alloc::{AllocError, AllocFailed};

/// Why a question has no answer.
#[derive(Clone, Copy, PartialEq, Eq, Debug, Drop)]
pub enum AskFault {
    /// The path has no room for one more question, or for one more symbol.
    Full,
    /// Memory ran out. No contract says when.
    NoMemory,
}

impl From<NoMemory> for AskFault {
    ghost from_gives = { λ _ fault. fault ≡ NoMemoryFault };

    fn from(_: NoMemory) -> AskFault {
        AskFault::NoMemory
    }
}

impl From<AllocError> for AskFault {
    ghost from_gives = { λ _ fault. fault ≡ NoMemoryFault };

    fn from(_: AllocError) -> AskFault {
        AskFault::NoMemory
    }
}

impl<T: Drop> From<AllocFailed<T>> for AskFault {
    ghost from_gives = { λ _ fault. fault ≡ NoMemoryFault };

    fn from(_: AllocFailed<T>) -> AskFault {
        AskFault::NoMemory
    }
}

/// Whether what was added to a store went in, or blocks the run.
#[derive(Clone, Copy, PartialEq, Eq, Debug, Drop)]
pub enum Added {
    Went,
    Blocked,
}

/// Answers questions along one path. What a run finds is true of the evidence that follows its path. Crates above call
/// `question`, `ask_at_most`, `ask_same`, `take_turn` and `make_symbol` in place of the three calls.
pub trait Asker {
    ghost use Rattle.std.specs.Prelude.{ℕ, List};
    ghost use Rattle.pv_linear.specs.declared.Literal.{Literal};
    ghost use Rattle.pv_linear.specs.declared.Sort.{Sort as Sorts};

    /// The literals on the path.
    ghost path: { Self → List Literal };

    /// The turns taken.
    ghost turns: { Self → List ℕ };

    /// The decisions: literals that were undecided when they were asked, as they were answered, and turns, those kept for
    /// later calls included.
    ghost decisions: { Self → List Decision };

    /// The evidence lies in some part of what is to be walked, the path included.
    ghost stands: { Self → Evidence → Type 0 };

    /// The sorts of the symbols made, which are numbered from 1 in this order.
    ghost sorts: { Self → List Sorts };

    /// How many paths have ended before this one. No call changes it.
    ghost ended: { Self → ℕ };

    /// Puts the literal on the path and answers true, or its opposite and answers false. `Full` comes only where the path can
    /// be met and 65,536 of its literals are such that the opposite of each can be met together with those before it. After
    /// a refusal all is as before.
    fn ask(&mut self, literal: Literal) -> Result<bool, AskFault>
        requires bound { IsBounded (2 ^ 100) literal }
        requires opposite { IsBounded (2 ^ 100) (opposite literal) }
        requires may { MayAsk (path self.old) literal }
        ensures path { IfOk result (λ told. path self.new ≡ path self.old ++ answered literal told ∷ []) }
        ensures decides { IfOk result (λ told. Decides (path self.old) (decisions self.old) (decisions self.new) (answered literal told)) }
        ensures turns { turns self.new ≡ turns self.old }
        ensures sorts { sorts self.new ≡ sorts self.old }
        ensures keeps { (e : Evidence) → stands self.old e → stands self.new e }
        ensures adds { (e : Evidence) → stands self.new e → stands self.old e }
        ensures ended { ended self.new ≡ ended self.old }
        ensures same_path { OnErr result (path self.new ≡ path self.old) }
        ensures same_decisions { OnErr result (decisions self.new ≡ decisions self.old) }
        ensures full { IfErr result (λ fault. OnFull fault (IsLong (path self.old))) };

    /// The next turn, below 3: the next of the kept ones, and where none is left, a new decision. It never answers `Full`.
    /// After a refusal all is as before.
    fn turn(&mut self) -> Result<u32, AskFault>
        ensures below { IfOk result (λ n. n < 3) }
        ensures turns { IfOk result (λ n. turns self.new ≡ turns self.old ++ n ∷ []) }
        ensures decides { IfOk result (λ n. DecidesTurn (turns self.old) (decisions self.old) (decisions self.new) n) }
        ensures path { path self.new ≡ path self.old }
        ensures sorts { sorts self.new ≡ sorts self.old }
        ensures keeps { (e : Evidence) → stands self.old e → stands self.new e }
        ensures adds { (e : Evidence) → stands self.new e → stands self.old e }
        ensures ended { ended self.new ≡ ended self.old }
        ensures same_turns { OnErr result (turns self.new ≡ turns self.old) }
        ensures same_decisions { OnErr result (decisions self.new ≡ decisions self.old) }
        ensures fault { IfErr result (λ fault. fault ≡ NoMemoryFault) };

    /// A new symbol of this sort; they are numbered from 1. `Full` comes only where the path can be met and 4,294,967,294
    /// symbols stand. After a refusal all is as before.
    fn fresh(&mut self, sort: Sort) -> Result<Symbol, AskFault>
        ensures symbol { IfOk result (λ symbol. symbol.0 ≡ length (sorts self.old) + 1) }
        ensures sorts { OnOk result (sorts self.new ≡ sorts self.old ++ sort ∷ []) }
        ensures path { path self.new ≡ path self.old }
        ensures turns { turns self.new ≡ turns self.old }
        ensures decisions { decisions self.new ≡ decisions self.old }
        ensures keeps { (e : Evidence) → stands self.old e → stands self.new e }
        ensures adds { (e : Evidence) → stands self.new e → stands self.old e }
        ensures ended { ended self.new ≡ ended self.old }
        ensures same_sorts { OnErr result (sorts self.new ≡ sorts self.old) }
        ensures full { IfErr result (λ fault. OnFull fault (HasAllSymbols (path self.old) (sorts self.old))) };

    /// The turns taken are always the first of the turns among the decisions.
    ghost takes_first: { (a : Self) → AreTaken (turns a) (decisions a) };
}
