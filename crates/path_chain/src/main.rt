//! Pushes a chain of differences through `ask`, for bench/path, which measures it. The words are how many links, and the order:
//! `rising` and `falling` push the links from the first or from the last one on; `each` asks after each link for what follows
//! from the links so far; `ways` walks all paths of so many questions, of which none follows from the others; `replay` walks all
//! paths of a chain, each of which ends where a link doesn't hold. It writes how many literals of the path were undecided, of
//! the last path where there are more.
#![tactic(auto)]

ghost use Rattle.std.specs.Prelude.{◌≡◌, ◌<◌, ◌≤◌, ◌+◌, true};
ghost use Rattle.pv_linear.specs.Decisions.{literals_in};
ghost use Rattle.pv_diff.specs.Parts.{AllAtMost};
ghost use Rattle.pv_path.specs.Paths.{path_of, decisions};

use pv_linear::{AskFault, Asker, Literal, Symbol};
use pv_path::{Next, Path};
use std::env;

/// More links are not pushed.
const MOST: u32 = 1000000;

/// Asks whether symbol k is below symbol k + 1.
#[tactic(auto, using(pv_path::proofs::TestLemmas::differences_may_ask, pv_path::proofs::TestLemmas::differences_more))]
fn push_link(path: &mut Path, k: u32) -> Result<bool, AskFault>
    requires path { AllAtMost (path_of path.old) }
    requires few { k ≤ 1000000 }
    ensures path { AllAtMost (path_of path.new) }
{
    match path.ask(Literal::AtMost(Symbol(k), Symbol(k + 1), -1)) {
        Ok(told) => Ok(told),
        Err(fault) => Err(fault),
    }
}

/// Asks whether the first symbol is at least `links` below the one behind so many links.
#[tactic(auto, using(pv_path::proofs::TestLemmas::differences_may_ask, pv_path::proofs::TestLemmas::differences_more))]
fn ask_whole(path: &mut Path, links: u32) -> Result<bool, AskFault>
    requires path { AllAtMost (path_of path.old) }
    requires few { links ≤ 1000000 }
    ensures path { AllAtMost (path_of path.new) }
{
    let literal = Literal::AtMost(Symbol(1), Symbol(links + 1), -i128::from(links));
    match path.ask(literal) {
        Ok(told) => Ok(told),
        Err(fault) => Err(fault),
    }
}

/// Pushes the links from the first one on.
fn push_rising(path: &mut Path, count: u32, each: bool) -> Result<(), AskFault>
    requires path { AllAtMost (path_of path.old) }
    requires few { count ≤ 1000000 }
{
    for k in 0..count {
        push_link(path, k + 1)?;
        if each {
            ask_whole(path, k + 1)?;
        }
    }
    Ok(())
}

/// Pushes them from the last one on.
fn push_falling(path: &mut Path, count: u32) -> Result<(), AskFault>
    requires path { AllAtMost (path_of path.old) }
    requires few { count ≤ 1000000 }
{
    for k in 0..count {
        push_link(path, count - k)?;
    }
    Ok(())
}

/// Asks whether one symbol is at most another; false also where the asker refuses.
#[tactic(auto, using(pv_path::proofs::TestLemmas::differences_may_ask, pv_path::proofs::TestLemmas::differences_more, pv_path::proofs::TestLemmas::differences_decided))]
fn is_at_most(path: &mut Path, x: u32, y: u32) -> bool
    requires path { AllAtMost (path_of path.old) }
    requires decisions { AllAtMost (literals_in (decisions path.old)) }
    ensures path { AllAtMost (path_of path.new) }
    ensures decisions { AllAtMost (literals_in (decisions path.new)) }
{
    match path.ask(Literal::AtMost(Symbol(x), Symbol(y), 0)) {
        Ok(told) => told,
        Err(_) => false,
    }
}

/// Asks of so many symbols whether they are at most 0; of a chain, whether each is at most the next, up to one that isn't.
fn walk(path: &mut Path, count: u32, chain: bool)
    requires path { AllAtMost (path_of path.old) }
    requires decisions { AllAtMost (literals_in (decisions path.old)) }
    requires few { count ≤ 1000000 }
    ensures decisions { AllAtMost (literals_in (decisions path.new)) }
{
    for k in 0..count {
        let bound = if chain { k + 2 } else { 0 };
        let told = is_at_most(path, k + 1, bound);
        if chain && !told {
            break;
        }
    }
}

/// Goes to the next path.
fn go_on(path: &mut Path) -> bool
    requires decisions { AllAtMost (literals_in (decisions path.old)) }
    ensures path { result ≡ true → AllAtMost (path_of path.new) }
    ensures decisions { result ≡ true → AllAtMost (literals_in (decisions path.new)) }
{
    match path.next_path() {
        Next::More => true,
        Next::Done | Next::Splits => false,
    }
}

/// Walks all paths.
fn walk_all(path: &mut Path, count: u32, chain: bool)
    requires path { AllAtMost (path_of path.old) }
    requires decisions { AllAtMost (literals_in (decisions path.old)) }
    requires few { count ≤ 1000000 }
{
    for _walk in 0..65536u32 {
        walk(path, count, chain);
        if !go_on(path) {
            break;
        }
    }
}

/// Does what the word says.
fn work(path: &mut Path, count: u32, order: &str) -> Result<(), AskFault>
    requires path { AllAtMost (path_of path.old) }
    requires decisions { AllAtMost (literals_in (decisions path.old)) }
    requires few { count ≤ 1000000 }
{
    match order {
        "falling" => push_falling(path, count),
        "each" => push_rising(path, count, true),
        "ways" => Ok(walk_all(path, count, false)),
        "replay" => Ok(walk_all(path, count, true)),
        _ => push_rising(path, count, false),
    }
}

fn main(rt: HostRuntime) -> anyhow::Result<()> {
    let mut words = env::args(&rt)?.skip(1);
    let (Some(count), Some(order)) = (words.next(), words.next()) else {
        return Ok(());
    };
    let count = count.as_str().parse::<u32>()?.min(MOST);
    let mut path = Path::new(rt.alloc());
    let pushed = work(&mut path, count, order.as_str());
    println!(rt; "{} {}", path.literals().len(), pushed.is_ok())?;
    Ok(())
}
