//! Numbers for slots, lowered edge by edge until each edge is met, or until what lowered them goes round.

ghost use Rattle.std.specs.Prelude.{◌≡◌, ℕ, ◌^◌, ◌<◌, ◌≤◌, pos, ◌+ℤ◌, ◌≤ℤ◌, length, slice_index_or, None, IfSome, IfOk, replicate};
ghost use Rattle.pv_diff.specs.Limits.{too_many};
ghost use Rattle.pv_diff.specs.Edges.{AllBelow, widest, breadth, edge, IsNegativeRound};
ghost use Rattle.pv_diff.specs.Table.{IsSound, AreAbove, IsAbove, IsMet, AreMet, Lowers, IsOnLoop, IsSettled, unlowered};

use crate::Places;
use pv_base::NoMemory;
use sqlite_items::Items;
use std::alloc::Global;

/// A difference of two slots: the number of `to` is at most that of `from` plus `bound`.
#[derive(Clone, Copy, Debug, Drop)]
pub struct Edge {
    pub to: u32,
    pub from: u32,
    pub bound: i128,
}

/// The edge that lowered a slot last: its place, and the slot that it comes from.
#[derive(Clone, Copy, Debug, Drop)]
pub struct Cause {
    pub place: u32,
    pub from: u32,
}

/// What stands for a slot so far: its number, and what lowered it.
#[derive(Clone, Copy, Debug, Drop)]
pub struct Entry {
    pub number: i128,
    pub cause: Option<Cause>,
}

/// Lowers the slot that the edge at a place leads to, where that edge is not met, and says which it is.
fn lower(table: &mut [Entry], edges: &[Edge], place: usize) -> Option<u32>
    requires place { place < length edges.now }
    requires few { length edges.now < too_many }
    requires slots { AllBelow (length table.old) edges.now }
    requires bounds { widest edges.now ≤ 2 ^ 100 }
    requires sound { IsSound edges.now table.old }
    requires above { AreAbove edges.now table.old }
    ensures kept { result ≡ None → table.new ≡ table.old }
    ensures met { result ≡ None → IsMet table.old (slice_index_or edges.now place (edge 0 0 (pos 0))) }
    ensures lowered { IfSome result (λ x. Lowers edges.now table.old table.new x) }
{
    let edge = edges[place];
    let to = edge.to as usize;
    let most = table[edge.from as usize].number + edge.bound;
    if table[to].number <= most {
        return None;
    }
    table[to] = Entry {
        number: most,
        cause: Some(Cause {
            place: place as u32,
            from: edge.from,
        }),
    };
    Some(edge.to)
}

/// Goes over all edges once, from the first one on or, backward, from the last one on, and says which slot was lowered last.
/// It stops at a slot that comes to lie further below zero than all bounds together.
fn lower_all(table: &mut [Entry], edges: &[Edge], limit: i128, backward: bool) -> Option<u32>
    requires few { length edges.now < too_many }
    requires slots { AllBelow (length table.old) edges.now }
    requires bounds { widest edges.now ≤ 2 ^ 100 }
    requires limit { limit ≡ pos (breadth edges.now) }
    requires sound { IsSound edges.now table.old }
    requires above { AreAbove edges.now table.old }
    ensures kept { result ≡ None → table.new ≡ table.old }
    ensures met { result ≡ None → AreMet table.old edges.now }
    ensures lowered { IfSome result (λ x. Lowers edges.now table.old table.new x) }
{
    let mut last = None;
    for step in 0..edges.len() {
        let place = if backward {
            edges.len() - 1 - step
        } else {
            step
        };
        if let Some(slot) = lower(table, edges, place) {
            last = Some(slot);
            if table[slot as usize].number < -limit {
                return last;
            }
        }
    }
    last
}

/// Follows the causes from a slot: None where they end at a slot that was never lowered, else a slot that they lead back to.
fn follow(table: &[Entry], edges: &[Edge], start: u32) -> Option<u32>
    requires few { length edges.now < too_many }
    requires slots { AllBelow (length table.now) edges.now }
    requires start { start < length table.now }
    requires sound { IsSound edges.now table.now }
    ensures ends { result ≡ None → IsAbove edges.now table.now start }
    ensures slot { IfSome result (λ x. x < length table.now) }
    ensures loops { IfSome result (λ x. IsOnLoop edges.now table.now x) }
{
    let mut at = start;
    for _step in 0..edges.len() + 1 {
        match table[at as usize].cause {
            Some(cause) => at = cause.from,
            None => return None,
        }
    }
    Some(at)
}

/// The places of the edges by which the causes lead from a slot back to it.
fn loop_places(
    alloc: Global,
    table: &[Entry],
    edges: &[Edge],
    start: u32,
) -> Result<Places, NoMemory>
    requires few { length edges.now < too_many }
    requires slots { AllBelow (length table.now) edges.now }
    requires start { start < length table.now }
    requires sound { IsSound edges.now table.now }
    requires loops { IsOnLoop edges.now table.now start }
    ensures { IfOk result (λ places. IsNegativeRound edges.now places) }
{
    let mut places = Items::new(alloc);
    let mut at = start;
    for _step in 0..edges.len() + 1 {
        match table[at as usize].cause {
            Some(cause) => {
                places.push(cause.place)?;
                at = cause.from;
                if at == start {
                    return Ok(places);
                }
            }
            None => unreachable!(),
        }
    }
    unreachable!()
}

/// How far from zero the bounds are, all together.
fn breadth_of(edges: &[Edge]) -> i128
    requires few { length edges.now < too_many }
    requires bounds { widest edges.now ≤ 2 ^ 100 }
    ensures { result ≡ pos (breadth edges.now) }
{
    let mut sum = 0;
    for edge in edges {
        sum += edge.bound.unsigned_abs();
    }
    sum as i128
}

/// What lowering comes to: numbers that meet every edge, or the places of edges that go round and add up to less than zero.
#[derive(Drop)]
pub enum Settled {
    Numbers(Vec<Entry>),
    Round(Places),
}

/// An entry that nothing has lowered for each slot.
fn start_table(alloc: Global, count: usize) -> Result<Vec<Entry>, NoMemory>
    ensures { IfOk result (λ table. table.items ≡ replicate count unlowered) }
{
    let entry = Entry {
        number: 0,
        cause: None,
    };
    Ok(vec![in alloc; entry; count]?)
}

/// Settles the edges: numbers that meet them all, or edges that go round and add up to less than zero. It fails for want of
/// memory alone.
pub fn settle(alloc: Global, edges: &[Edge], count: usize) -> Result<Settled, NoMemory>
    requires few { length edges.now < too_many }
    requires slots { AllBelow count edges.now }
    requires bounds { widest edges.now ≤ 2 ^ 100 }
    ensures { IfOk result (λ settled. IsSettled edges.now count settled) }
{
    let limit = breadth_of(edges);
    let mut table = start_table(alloc, count)?;
    let mut backward = false;
    while let Some(last) = lower_all(&mut table, edges, limit, backward) {
        if let Some(slot) = follow(&table, edges, last) {
            return Ok(Settled::Round(loop_places(alloc, &table, edges, slot)?));
        }
        backward = !backward;
    }
    Ok(Settled::Numbers(table))
}
