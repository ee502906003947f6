//! Evidence, prepared for a run.
ghost use Rattle.std.specs.Prelude.{◌≡◌, map, IfOk, IfErr, OnOk, ◌∷◌};
ghost use Rattle.pv_picks.specs.Judge.Runs.{content, step_value};
ghost use Rattle.pv_picks.specs.Judge.States.{as_element};
ghost use Rattle.pv_cells.specs.Prepared.{step_maps, maps_in, maps_of};
ghost use Rattle.pv_cells.specs.Stores.{cell_of};

use crate::store::Cell;
use pv_ast::PvType;
use pv_base::NoMemory;
use pv_picks::{Evidence, Pick, StepMap, StepPair};
use pv_values::Value;
use std::alloc::Global;

/// Evidence, and its picks for ranges in their order.
#[derive(Drop)]
pub struct Prepared<'a> {
    pub evidence: &'a Evidence,
    pub maps: Vec<&'a StepMap>,
}

impl<'a> Prepared<'a> {
    /// The evidence, prepared in one pass over its picks.
    pub fn new(alloc: Global, evidence: &'a Evidence) -> Result<Prepared<'a>, NoMemory>
        ensures same { IfOk result (λ g. g.evidence.now ≡ evidence.now) }
        ensures maps { IfOk result (λ g. map (λ m. m.now) g.maps.items ≡ step_maps evidence.now.picks) }
    {
        let mut maps = Vec::new(alloc);
        for pick in evidence.picks.as_slice() {
            if let Pick::Steps(steps) = pick {
                maps.push(steps)?;
            }
        }
        Ok(Prepared { evidence, maps })
    }

    /// What is in a location.
    pub fn content(&self, cell: Cell) -> Value
        ensures { result ≡ content (maps_of self.now) (cell_of cell) }
    {
        match cell {
            Cell::Written(v) => v,
            Cell::FromSteps(kind, number, index) => {
                element(kind, given_by(self.maps.as_slice(), number, index))
            }
        }
    }
}

/// What a pick for a range gives an index, and 0 where there is no such pick.
#[tactic(auto, using(crate::proofs::Maps::map_at, crate::proofs::Maps::no_map_at))]
fn given_by(maps: &[&StepMap], number: usize, index: i128) -> i128
    ensures { result ≡ maps_in (map (λ m. m.now) maps.now) number index }
{
    if number < maps.len() {
        let steps = maps[number];
        return step_value(steps.as_slice(), index);
    }
    0
}

/// An element by its number in a pick for a range.
fn element(kind: PvType, number: i128) -> Value
    ensures { result ≡ as_element kind number }
{
    match kind {
        PvType::Truth => Value::Truth(1 <= number),
        _ => Value::Number(number),
    }
}

/// The value of the last listed position that isn't above. One pass over the pairs.
fn step_value(pairs: &[StepPair], position: i128) -> i128
    ensures { result ≡ step_value pairs.now position }
{
    let mut value = 0;
    for pair in pairs {
        if pair.at <= position {
            value = pair.value;
        }
    }
    value
}
