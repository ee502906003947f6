//! The path and its open sides, as the one who answers.

ghost use Rattle.std.specs.Prelude.{◌≡◌, ◌≢◌, ◌∷◌, [], ◌++◌, ◌≤◌, ◌<◌, ◌+◌, ◌^◌, ◌↔◌, length, take, IfOk, IfErr, IfSome, OnOk, OnErr, true, false};
ghost use Rattle.pv_linear.specs.declared.asker.AskFault.TheVariants.{NoMemory as NoMemoryFault};
ghost use Rattle.pv_linear.specs.Values.{Values};
ghost use Rattle.pv_linear.specs.Literal.{IsBounded, Holds, Meets, opposite, bound_of_all};
ghost use Rattle.pv_linear.specs.Sorting.{AreSortsApart};
ghost use Rattle.pv_linear.specs.Evidence.{Evidence, HasTurns, CanBeMet, MayAsk, IsLong, HasAllSymbols, OnFull, answered};
ghost use Rattle.pv_linear.specs.Decisions.{Agrees, Decides, DecidesTurn, literals_in, turns_in};
ghost use Rattle.pv_path.specs.declared.branch.Branch.TheVariants.{Open as OpenBranch};
ghost use Rattle.pv_path.specs.declared.path.Next.TheVariants.{More as MoreNext, Done as DoneNext, Splits as SplitsNext};
ghost use Rattle.pv_path.specs.Branches.{branch_turns};
ghost use Rattle.pv_path.specs.Standing.{Narrowed, AreUndecided, IsOpen, IsSettled, IsSideOf};

use crate::branch::{next_side, turn_at, turns_of};
use crate::choices::Choices;
use crate::literals::{Settled, can_be_added, has_free_symbol, has_new_symbol, known, known_at};
use pv_base::NoMemory;
use pv_linear::{AskFault, Asker, Literal, Sort, Symbol};
use std::alloc::Global;

/// So many literals that were undecided may stand on one path.
const MOST_LITERALS: usize = 65536;

/// So many paths may end.
const MOST_PATHS: u32 = 65536;

/// So many symbols may stand on one path.
const MOST_SYMBOLS: usize = 4294967294;

/// A path through the cases of a run, and the sides that are still to be walked: the decisions with what is open of them; the
/// literals asked on this path, `kept` of those among the decisions stand before them; how many turns were taken on it, the
/// sorts of the symbols made on it, and how many paths have ended.
#[derive(Drop)]
pub struct Path {
    alloc: Global,
    pub choices: Choices,
    pub asked: Vec<Literal>,
    pub kept: usize,
    pub taken: usize,
    pub sorts: Vec<Sort>,
    pub ended: u32,
    ghost within: { kept ≤ length choices.literals.items },
    ghost narrowed: { ∥ Narrowed (take kept choices.literals.items ++ asked.items) choices.literals.items ∥₁ },
    ghost fits: { taken ≤ length (branch_turns choices.branches.items) },
    ghost few: { ended < 65536 },
    ghost numbered: { length sorts.items ≤ 4294967294 },
}

/// How the search goes on.
#[derive(Clone, Copy, PartialEq, Eq, Debug, Drop)]
pub enum Next {
    /// Another path is to be walked.
    More,
    /// No side is open.
    Done,
    /// So many paths have ended that no other is walked.
    Splits,
}

impl Path {
    ghost use Rattle.pv_path.specs.Paths.{path_of, turns_of, decisions, open_sides, stands, sorts_of, ended};

    /// Nothing is asked, nothing is decided, no side is open, and everything stands on the path. It takes no memory.
    pub fn new(alloc: Global) -> Path
        ensures decisions { decisions result ≡ [] }
        ensures open_sides { open_sides result ≡ [] }
        ensures path { path_of result ≡ [] }
        ensures turns { turns_of result ≡ [] }
        ensures sorts { sorts_of result ≡ [] }
        ensures ended { ended result ≡ 0 }
        ensures stands { (e : Evidence) → HasTurns e → stands result e }
    {
        Path {
            alloc,
            choices: Choices::new(alloc),
            asked: Vec::new(alloc),
            kept: 0,
            taken: 0,
            sorts: Vec::new(alloc),
            ended: 0,
        }
    }

    /// The path's literals that were undecided when they were asked, in order: of each, the opposite can be met together with
    /// those before it. The same values meet them and the path. It takes no memory.
    pub fn literals(&self) -> &[Literal]
        ensures value { result.now ≡ literals_in (decisions self.now) }
        ensures same { (v : Values) → Meets v result.now ↔ Meets v (path_of self.now) }
        ensures undecided { AreUndecided result.now }
        ensures few { length result.now ≤ 65536 }
        ensures bounds { bound_of_all result.now ≤ 2 ^ 100 }
    {
        &self.choices.literals
    }

    /// The turns among the path's decisions, in order, those kept for later calls of `turn` included.
    pub fn decided_turns(&self, alloc: Global) -> Result<Vec<u32>, NoMemory>
        ensures { IfOk result (λ turns. turns.items ≡ turns_in (decisions self.now)) }
    {
        turns_of(alloc, &self.choices.branches)
    }

    /// Whether the literal follows from the path, or its opposite, or neither. One that stands on the path, or whose opposite
    /// does, and one with a symbol that no undecided literal has are told without the solver.
    fn settle(&self, literal: Literal) -> Result<Settled, NoMemory>
        requires bound { IsBounded (2 ^ 100) literal }
        requires opposite { IsBounded (2 ^ 100) (opposite literal) }
        requires sorts { MayAsk (path_of self.now) literal }
        ensures { IfOk result (λ settled. IsSettled (path_of self.now) literal settled) }
    {
        if has_new_symbol(literal, self.choices.highest) {
            return Ok(Settled::Undecided);
        }
        if let Some(told) = self.known(literal) {
            return Ok(Settled::Told(told));
        }
        if has_free_symbol(&self.choices.literals, literal) {
            return Ok(Settled::Undecided);
        }
        if !self.is_possible(literal)? {
            return Ok(Settled::Told(false));
        }
        if !self.is_possible(literal.opposite())? {
            return Ok(Settled::Told(true));
        }
        Ok(Settled::Undecided)
    }

    /// Whether the literal can be met together with the path.
    fn is_possible(&self, literal: Literal) -> Result<bool, NoMemory>
        requires bound { IsBounded (2 ^ 100) literal }
        requires sorts { AreSortsApart (self.now.choices.literals.items ++ literal ∷ []) }
        ensures no { IfOk result (λ told. told ≡ false → (v : Values) → Meets v (path_of self.now) → Holds v literal → ⊥) }
        ensures yes { IfOk result (λ told. told ≡ true → CanBeMet (path_of self.now ++ literal ∷ [])) }
    {
        can_be_added(self.alloc, &self.choices.literals, literal)
    }

    /// The answer of the kept literal that comes next, where only kept ones were asked so far.
    fn known_next(&self, literal: Literal) -> Option<bool>
        requires { IsBounded (2 ^ 126) literal }
        ensures { IfSome result (λ told. (v : Values) → Meets v (path_of self.now) → Holds v (answered literal told)) }
    {
        known_at(
            &self.choices.literals[..self.kept],
            self.asked.len(),
            literal,
        )
    }

    /// The answer that the path has itself, by a look along it.
    fn known_among(&self, literal: Literal) -> Option<bool>
        requires { IsBounded (2 ^ 126) literal }
        ensures { IfSome result (λ told. (v : Values) → Meets v (path_of self.now) → Holds v (answered literal told)) }
    {
        match known(&self.choices.literals[..self.kept], literal) {
            Some(told) => Some(told),
            None => known(&self.asked, literal),
        }
    }

    /// The answer that the path has itself. A run that asks again what the path before was asked is told without a look along.
    fn known(&self, literal: Literal) -> Option<bool>
        requires { IsBounded (2 ^ 126) literal }
        ensures { IfSome result (λ told. (v : Values) → Meets v (path_of self.now) → Holds v (answered literal told)) }
    {
        match self.known_next(literal) {
            Some(told) => Some(told),
            None => self.known_among(literal),
        }
    }

    /// One more literal that follows from the path. After a refusal all is as before.
    fn follow(&mut self, literal: Literal) -> Result<(), NoMemory>
        requires { (v : Values) → Meets v (path_of self.old) → Holds v literal }
        ensures path { OnOk result (path_of self.new ≡ path_of self.old ++ literal ∷ []) }
        ensures same_path { OnErr result (path_of self.new ≡ path_of self.old) }
        ensures choices { self.new.choices ≡ self.old.choices }
        ensures taken { self.new.taken ≡ self.old.taken }
        ensures sorts { self.new.sorts ≡ self.old.sorts }
        ensures ended { self.new.ended ≡ self.old.ended }
    {
        self.asked.push(literal)?;
        Ok(())
    }

    /// One more literal that was undecided. After a refusal all is as before.
    fn decide(&mut self, literal: Literal) -> Result<(), NoMemory>
        requires bound { IsBounded (2 ^ 100) literal }
        requires opposite { IsBounded (2 ^ 100) (opposite literal) }
        requires room { length self.old.choices.literals.items < 65536 }
        requires open { IsOpen (path_of self.old) literal }
        ensures path { OnOk result (path_of self.new ≡ path_of self.old ++ literal ∷ []) }
        ensures same_path { OnErr result (path_of self.new ≡ path_of self.old) }
        ensures branches { OnOk result (self.new.choices.branches.items ≡ self.old.choices.branches.items ++ OpenBranch literal ∷ []) }
        ensures same_branches { OnErr result (self.new.choices.branches.items ≡ self.old.choices.branches.items) }
        ensures taken { self.new.taken ≡ self.old.taken }
        ensures sorts { self.new.sorts ≡ self.old.sorts }
        ensures ended { self.new.ended ≡ self.old.ended }
    {
        self.asked.reserve(1)?;
        self.choices.decide(literal)?;
        match self.asked.push(literal) {
            Ok(()) => Ok(()),
            Err(_) => unreachable!(),
        }
    }

    /// Ends the path and goes to the next one. `More`: the last decision that had an open side is turned over, those before it
    /// stay, and the literals among them are on the path; no turn counts as taken, and symbols are numbered from 1 again.
    /// `Done`: no side is open. `Splits`: another is, but with this path 65,536 have ended. Where the answer is not `More`, all
    /// is as before. It takes no memory; `More` costs a look along the decisions.
    pub fn next_path(&mut self) -> Next
        ensures side { result ≡ MoreNext → IsSideOf (decisions self.old) (decisions self.new) }
        ensures parts { result ≡ MoreNext → open_sides self.old ≡ open_sides self.new ++ decisions self.new ∷ [] }
        ensures stands { result ≡ MoreNext → (e : Evidence) → stands self.new e ↔ (stands self.old e × (Agrees e (decisions self.old) → ⊥)) }
        ensures path { result ≡ MoreNext → path_of self.new ≡ literals_in (decisions self.new) }
        ensures turns { result ≡ MoreNext → turns_of self.new ≡ [] }
        ensures sorts { result ≡ MoreNext → sorts_of self.new ≡ [] }
        ensures ended { result ≡ MoreNext → ended self.new ≡ ended self.old + 1 }
        ensures done { result ≡ DoneNext → open_sides self.old ≡ [] }
        ensures splits { result ≡ SplitsNext → open_sides self.old ≢ [] }
        ensures last { result ≡ SplitsNext → ended self.old + 1 ≡ 65536 }
        ensures same { result ≢ MoreNext → self.new ≡ self.old }
    {
        let Some(side) = next_side(&self.choices.branches) else {
            return Next::Done;
        };
        if self.ended + 1 == MOST_PATHS {
            return Next::Splits;
        }
        self.choices.turn_over(side);
        self.asked.clear();
        self.kept = self.choices.literals.len();
        self.taken = 0;
        self.sorts.clear();
        self.ended += 1;
        Next::More
    }
}

impl Asker for Path {
    ghost use Rattle.pv_path.specs.Paths.{path_of, turns_of, decisions, open_sides, stands, sorts_of, ended};
    ghost use Rattle.pv_path.specs.Taking.{takes_first};

    ghost path = { λ p. path_of p };

    ghost turns = { λ p. turns_of p };

    ghost decisions = { λ p. decisions p };

    ghost stands = { λ p e. stands p e };

    ghost sorts = { λ p. sorts_of p };

    ghost ended = { λ p. ended p };

    /// As the trait says. `Full` comes exactly where the path has 65,536 literals that were undecided when they were asked, and
    /// this one is undecided too. A literal that is undecided is answered by true.
    fn ask(&mut self, literal: Literal) -> Result<bool, AskFault>
        requires bound { IsBounded (2 ^ 100) literal }
        requires opposite { IsBounded (2 ^ 100) (opposite literal) }
        requires may { MayAsk (path_of self.old) literal }
        ensures path { IfOk result (λ told. path_of self.new ≡ path_of self.old ++ answered literal told ∷ []) }
        ensures decides { IfOk result (λ told. Decides (path_of self.old) (decisions self.old) (decisions self.new) (answered literal told)) }
        ensures turns { turns_of self.new ≡ turns_of self.old }
        ensures sorts { sorts_of self.new ≡ sorts_of self.old }
        ensures keeps { (e : Evidence) → stands self.old e → stands self.new e }
        ensures same_path { OnErr result (path_of self.new ≡ path_of self.old) }
        ensures same_decisions { OnErr result (decisions self.new ≡ decisions self.old) }
        ensures full { IfErr result (λ fault. OnFull fault (IsLong (path_of self.old))) }
        ensures adds { (e : Evidence) → stands self.new e → stands self.old e }
        ensures full_literals { IfErr result (λ fault. OnFull fault (length (literals_in (decisions self.old)) ≡ 65536)) }
        ensures full_open { IfErr result (λ fault. OnFull fault (IsOpen (path_of self.old) literal)) }
        ensures not_full { OnOk result (IsLong (path_of self.old) → IsOpen (path_of self.old) literal → ⊥) }
        ensures ended { ended self.new ≡ ended self.old }
    {
        match self.settle(literal)? {
            Settled::Told(true) => {
                self.follow(literal)?;
                Ok(true)
            }
            Settled::Told(false) => {
                self.follow(literal.opposite())?;
                Ok(false)
            }
            Settled::Undecided => {
                if self.choices.literals.len() == MOST_LITERALS {
                    return Err(AskFault::Full);
                }
                self.decide(literal)?;
                Ok(true)
            }
        }
    }

    /// As the trait says: the kept turns first, and then 0.
    fn turn(&mut self) -> Result<u32, AskFault>
        ensures below { IfOk result (λ n. n < 3) }
        ensures turns { IfOk result (λ n. turns_of self.new ≡ turns_of self.old ++ n ∷ []) }
        ensures decides { IfOk result (λ n. DecidesTurn (turns_of self.old) (decisions self.old) (decisions self.new) n) }
        ensures path { path_of self.new ≡ path_of self.old }
        ensures sorts { sorts_of self.new ≡ sorts_of self.old }
        ensures keeps { (e : Evidence) → stands self.old e → stands self.new e }
        ensures same_turns { OnErr result (turns_of self.new ≡ turns_of self.old) }
        ensures same_decisions { OnErr result (decisions self.new ≡ decisions self.old) }
        ensures fault { IfErr result (λ fault. fault ≡ NoMemoryFault) }
        ensures adds { (e : Evidence) → stands self.new e → stands self.old e }
        ensures ended { ended self.new ≡ ended self.old }
    {
        if let Some(turn) = turn_at(&self.choices.branches, self.taken) {
            self.taken += 1;
            return Ok(turn.number());
        }
        self.choices.take_first()?;
        self.taken += 1;
        Ok(0)
    }

    /// As the trait says. `Full` comes exactly where 4,294,967,294 symbols stand.
    fn fresh(&mut self, sort: Sort) -> Result<Symbol, AskFault>
        ensures symbol { IfOk result (λ symbol. symbol.0 ≡ length (sorts_of self.old) + 1) }
        ensures sorts { OnOk result (sorts_of self.new ≡ sorts_of self.old ++ sort ∷ []) }
        ensures path { path_of self.new ≡ path_of self.old }
        ensures turns { turns_of self.new ≡ turns_of self.old }
        ensures decisions { decisions self.new ≡ decisions self.old }
        ensures keeps { (e : Evidence) → stands self.old e → stands self.new e }
        ensures adds { (e : Evidence) → stands self.new e → stands self.old e }
        ensures same_sorts { OnErr result (sorts_of self.new ≡ sorts_of self.old) }
        ensures full { IfErr result (λ fault. OnFull fault (HasAllSymbols (path_of self.old) (sorts_of self.old))) }
        ensures all { IfErr result (λ fault. OnFull fault (length (sorts_of self.old) ≡ 4294967294)) }
        ensures not_all { OnOk result (length (sorts_of self.old) ≡ 4294967294 → ⊥) }
        ensures sides { open_sides self.new ≡ open_sides self.old }
        ensures ended { ended self.new ≡ ended self.old }
    {
        let made = self.sorts.len();
        if made == MOST_SYMBOLS {
            return Err(AskFault::Full);
        }
        self.sorts.push(sort)?;
        Ok(Symbol(made as u32 + 1))
    }

    ghost takes_first = { λ p. takes_first p.choices.branches.items p.taken };
}
