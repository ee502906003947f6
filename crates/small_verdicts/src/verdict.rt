//! The search over all paths of a method.

ghost use Rattle.std.specs.Prelude.{◌≡◌, ℕ, ◌+◌, ◌≤◌, ◌^◌, pos, IfOk, OnOk, IsNone, IfSome, IsTrue, slice_index_or, true};
ghost use Rattle.pv_ast.specs.Measures.{literals_of_contract, literals_of_block};
ghost use Rattle.pv_linear.specs.Values.{Values, values_of};
ghost use Rattle.small_meaning.specs.Rules.{is_method};
ghost use Rattle.small_paths.specs.Parts.{Stands};
ghost use Rattle.small_verdicts.specs.Sorted.{is_sorted_method};
ghost use Rattle.small_verdicts.specs.Searching.{Shows, SoFar};
ghost use Rattle.small_verdicts.specs.Grounded.{HasGround};

use crate::method::{MethodEnd, run_method};
use crate::{Numbers, SmallCheck, SmallVerdict};
use pv_ast::Method;
use pv_base::{NoMemory, Span};
use pv_linear::Assignment;
use small_paths::{Next, Path};
use sqlite_items::Items;
use std::alloc::Global;

/// What one path shows.
#[derive(Drop)]
pub enum Shown {
    /// No arguments that follow the path meet the precondition.
    Blocked,
    /// Some arguments meet the precondition, and the run fails on none that follow the path.
    Met,
    /// On these arguments the run fails.
    Fails(SmallCheck, Span, Numbers),
}

/// The numbers from symbol 1 on, which are those of the parameters.
fn arguments_of(alloc: Global, numbers: &Assignment) -> Result<Numbers, NoMemory>
    ensures { IfOk result (λ arguments. (k : ℕ) → slice_index_or arguments k (pos 0) ≡ values_of numbers.now k) }
{
    match numbers.as_slice() {
        [] => Ok(Items::new(alloc)),
        [_, arguments @ ..] => Ok(Items::from_slice(alloc, arguments)?),
    }
}

/// Runs the method along the path.
fn walk(alloc: Global, m: &Method, path: &mut Path) -> Result<Shown, NoMemory>
    requires sorted { is_sorted_method m.now ≡ true }
    requires size { literals_of_contract m.now.contract + literals_of_block m.now.body ≤ 2 ^ 20 }
    ensures shows { IfOk result (Shows m.now path.new.decisions.items) }
    ensures keeps { OnOk result ((v : Values) → Stands v path.old.decisions.items → Stands v path.new.decisions.items) }
{
    let end = run_method(alloc, m, path)?;
    if let MethodEnd::Blocked = end {
        return Ok(Shown::Blocked);
    }
    let Some(numbers) = path.witness()? else {
        return Ok(Shown::Blocked);
    };
    match end {
        MethodEnd::Failed(check, span) => {
            let arguments = arguments_of(alloc, &numbers)?;
            Ok(Shown::Fails(check, span, arguments))
        }
        _ => Ok(Shown::Met),
    }
}

/// Walks the path and goes to the next one; the verdict, if it is known then. `entered`: some arguments were seen to meet the
/// precondition.
fn advance(
    alloc: Global,
    m: &Method,
    entered: &mut bool,
    path: &mut Path,
) -> Result<Option<SmallVerdict>, NoMemory>
    requires sorted { is_sorted_method m.now ≡ true }
    requires size { literals_of_contract m.now.contract + literals_of_block m.now.body ≤ 2 ^ 20 }
    requires so_far { SoFar m.now path.old.decisions.items entered.old }
    ensures goes_on { IfOk result (λ verdict. IsNone verdict → SoFar m.now path.new.decisions.items entered.new) }
    ensures ends { IfOk result (λ verdict. IfSome verdict (HasGround m.now)) }
{
    match walk(alloc, m, path)? {
        Shown::Fails(check, span, numbers) => Ok(Some(SmallVerdict::Fail(check, span, numbers))),
        Shown::Met => {
            *entered = true;
            match path.next_path() {
                Next::More => Ok(None),
                Next::Done => Ok(Some(SmallVerdict::Pass)),
            }
        }
        Shown::Blocked => match path.next_path() {
            Next::More => Ok(None),
            Next::Done => Ok(Some(if *entered {
                SmallVerdict::Pass
            } else {
                SmallVerdict::Empty
            })),
        },
    }
}

/// The verdict by all paths of a method.
fn search(alloc: Global, m: &Method) -> Result<SmallVerdict, NoMemory>
    requires sorted { is_sorted_method m.now ≡ true }
    requires size { literals_of_contract m.now.contract + literals_of_block m.now.body ≤ 2 ^ 20 }
    ensures { IfOk result (HasGround m.now) }
{
    let mut path = Path::new(alloc);
    let mut entered = false;
    for _i in 0..u64::MAX {
        if let Some(verdict) = advance(alloc, m, &mut entered, &mut path)? {
            return Ok(verdict);
        }
    }
    Err(NoMemory)
}

/// The verdict on a method that keeps the rules: each of the three exactly where its ground holds, since no two grounds hold at
/// once. All paths are walked. NoMemory is the only error; it also comes after 2^64 - 1 paths, and where a path has 2^20
/// undecided questions, which no machine gets to and no text of a file spells.
pub fn verdict_of(alloc: Global, method: &Method) -> Result<SmallVerdict, NoMemory>
    requires rules { IsTrue (is_method method.now) }
    requires literals { literals_of_contract method.now.contract + literals_of_block method.now.body ≤ 2 ^ 20 }
    ensures ground { IfOk result (λ verdict. HasGround method.now verdict) }
{
    search(alloc, method)
}
