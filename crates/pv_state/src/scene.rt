//! What expressions speak of besides locations, and what a run has met, used and picked.

ghost use Rattle.std.specs.Prelude.{◌≡◌, List};
ghost use Rattle.pv_linear.specs.declared.Sort.{Sort as Sorts};
ghost use Rattle.pv_linear.specs.Values.{Values};
ghost use Rattle.pv_state.specs.Values.{value_at, IsMade};
ghost use Rattle.pv_state.specs.States.{variables_at, AreMade};

use crate::uses::TabledUse;
use crate::values::SymbolValue;
use pv_ast::PvType;
use pv_base::Name;
use pv_linear::{Sort, Symbol, Term};

/// A variable, and its value.
#[derive(Clone, Copy, Drop)]
pub struct Local {
    pub name: Name,
    pub value: SymbolValue,
}

/// `this`, the variables, `\result`. A variable that isn't listed is 0, and of one that is listed twice the first counts.
#[derive(Drop)]
pub struct SymbolScene {
    pub this: Symbol,
    pub locals: Vec<Local>,
    pub result: SymbolValue,
}

/// A reference that a run has met, with its type.
#[derive(Clone, Copy, Drop)]
pub struct Met {
    pub kind: PvType,
    pub symbol: Symbol,
}

/// A pick, as a run on symbols takes it.
#[derive(Clone, Copy, Drop)]
pub enum SymbolPick {
    Number(Sort, Symbol),
    Turn(u32),
}

/// What a run remembers and holds.
#[derive(Drop)]
pub struct Stores {
    pub uses: Vec<TabledUse>,
    pub met: Vec<Met>,
    pub picks: Vec<SymbolPick>,
}

/// The value of a variable.
#[tactic(auto, using(crate::proofs::Scenes::made_of, crate::proofs::Scenes::made_zero), unfolding(crate::specs::Values::value_at, crate::specs::Values::IsMade, pv_linear::specs::Sorts::HasSort, pv_linear::specs::Values::number_of))]
pub fn lookup(locals: &[Local], name: Name) -> SymbolValue
    ensures value { (v : Values) → value_at v result ≡ variables_at v locals.now name.0 }
    ensures made { (made : List Sorts) → AreMade made locals.now → IsMade made result }
{
    for local in locals {
        if local.name == name {
            return local.value;
        }
    }
    SymbolValue::Number(Term {
        symbol: Symbol::ZERO,
        plus: 0,
    })
}
