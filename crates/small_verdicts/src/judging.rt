//! A verdict on each unit of a program, in the order of the text.
ghost use Rattle.std.specs.Prelude.{◌^◌, ◌≤◌, IfOk, IsTrue, sum, map};
ghost use Rattle.std.specs.List.{flat_map, list_all};
ghost use Rattle.pv_ast.specs.Measures.{literals_of_member, literals_of_program};
ghost use Rattle.small_meaning.specs.Rules.{is_member, KeepsRules};

use crate::SmallVerdict;
use crate::verdict::verdict_of;
use pv_ast::{Class, Member, Program};
use pv_base::{Name, NoMemory};
use sqlite_items::Items;
use std::alloc::Global;

/// A verdict, and the class and the method that it is on.
#[derive(Drop)]
pub struct Judged {
    pub class: Name,
    pub method: Name,
    pub verdict: SmallVerdict,
}

ghost use Rattle.small_verdicts.specs.Units.{units_of_member, units_of_class, units_of, AreJudged};

/// A verdict on each method among the members of a class.
fn judge_members(alloc: Global, class: Name, members: &[Member]) -> Result<Items<Judged>, NoMemory>
    requires rules { IsTrue (list_all is_member members.now) }
    requires few { sum (map literals_of_member members.now) ≤ 2 ^ 20 }
    ensures { IfOk result (λ judged. AreJudged (flat_map (units_of_member class) members.now) judged) }
{
    let mut judged = Items::new(alloc);
    for member in members {
        if let Member::Method(method) = member {
            judged.push(Judged {
                class,
                method: method.name.name,
                verdict: verdict_of(alloc, method)?,
            })?;
        }
    }
    Ok(judged)
}

/// A verdict on each unit of a program.
pub fn judge(alloc: Global, program: &Program) -> Result<Items<Judged>, NoMemory>
    requires rules { KeepsRules program.now }
    requires few { literals_of_program program.now ≤ 2 ^ 20 }
    ensures { IfOk result (λ judged. AreJudged (units_of program.now) judged) }
{
    let mut judged = Items::new(alloc);
    for class in program.classes.as_slice() {
        judged.append(judge_members(alloc, class.name.name, class.members.as_slice())?)?;
    }
    Ok(judged)
}
