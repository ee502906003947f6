//! The decisions of a path, and the sides that they leave open.

ghost use Rattle.std.specs.Prelude.{◌≡◌, List, ◌∷◌, [], ◌++◌, ◌≤◌, ◌<◌, ◌^◌, OnOk, OnErr, length};
ghost use Rattle.pv_linear.specs.Literal.{IsBounded, opposite};
ghost use Rattle.pv_linear.specs.Decisions.{Decision};
ghost use Rattle.pv_path.specs.declared.branch.Branch.TheVariants.{Open as OpenBranch, Turned as TurnedBranch};
ghost use Rattle.pv_path.specs.declared.branch.Turn.TheVariants.{First as FirstTurn};
ghost use Rattle.pv_path.specs.Branches.{parts_of, branch_literals, IsNextSide, IsTurnedOver, Among};
ghost use Rattle.pv_path.specs.Standing.{CanStand, AreUndecided, IsOpen, span_of, highest_among};

use crate::branch::{Branch, Side, Turn, count_literals, put_last, put_literal};
use crate::literals::{highest_of, highest_symbol};
use pv_base::NoMemory;
use pv_linear::Literal;
use std::alloc::Global;

/// The decisions of a path, in order, with their literals once more by themselves. Each literal was undecided when it was
/// asked, and something stands in each part. No symbol of the literals is above `highest`.
#[derive(Drop)]
pub struct Choices {
    pub branches: Vec<Branch>,
    pub literals: Vec<Literal>,
    pub highest: u32,
    ghost same: { literals.items ≡ branch_literals branches.items },
    ghost few: { length literals.items ≤ 65536 },
    ghost near: { span_of literals.items ≤ 2 ^ 100 },
    ghost low: { highest_among literals.items ≤ highest },
    ghost undecided: { AreUndecided literals.items },
    ghost possible: { (part : List Decision) → Among (parts_of branches.items) part → CanStand part },
}

impl Choices {
    /// Nothing is decided. It takes no memory.
    pub fn new(alloc: Global) -> Choices
        ensures { result.branches.items ≡ [] }
    {
        Choices {
            branches: Vec::new(alloc),
            literals: Vec::new(alloc),
            highest: 0,
        }
    }

    /// One more literal, whose opposite is open. After a refusal all is as before.
    pub fn decide(&mut self, literal: Literal) -> Result<(), NoMemory>
        requires bound { IsBounded (2 ^ 100) literal }
        requires opposite { IsBounded (2 ^ 100) (opposite literal) }
        requires room { length self.old.literals.items < 65536 }
        requires open { IsOpen self.old.literals.items literal }
        ensures ok { OnOk result (self.new.branches.items ≡ self.old.branches.items ++ OpenBranch literal ∷ []) }
        ensures literals { OnOk result (self.new.literals.items ≡ self.old.literals.items ++ literal ∷ []) }
        ensures err { OnErr result (self.new.branches.items ≡ self.old.branches.items) }
        ensures same_literals { OnErr result (self.new.literals.items ≡ self.old.literals.items) }
    {
        self.branches.reserve(1)?;
        self.literals.push(literal)?;
        match self.branches.push(Branch::Open(literal)) {
            Ok(()) => {}
            Err(_) => unreachable!(),
        }
        self.highest = self.highest.max(highest_symbol(literal));
        Ok(())
    }

    /// One more turn, the first; the later ones are open. After a refusal all is as before.
    pub fn take_first(&mut self) -> Result<(), NoMemory>
        ensures ok { OnOk result (self.new.branches.items ≡ self.old.branches.items ++ TurnedBranch FirstTurn ∷ []) }
        ensures err { OnErr result (self.new.branches.items ≡ self.old.branches.items) }
        ensures literals { self.new.literals.items ≡ self.old.literals.items }
    {
        self.branches.push(Branch::Turned(Turn::First))?;
        Ok(())
    }

    /// Goes to the next side: what stands behind it is dropped. It takes no memory.
    pub fn turn_over(&mut self, side: Side)
        requires { IsNextSide self.old.branches.items side.place side.other }
        ensures { IsTurnedOver self.old.branches.items self.new.branches.items }
    {
        let count = count_literals(&self.branches[..side.place]);
        put_last(&mut self.branches, side.place, side.other);
        put_literal(&mut self.literals, count, side.other);
        self.highest = highest_of(&self.literals);
    }
}
