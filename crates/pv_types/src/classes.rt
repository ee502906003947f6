ghost use Rattle.std.specs.Prelude.{◌≡◌, ◌++◌, ◌||◌, false, map, is_some, OnOk, IfOk, MatchOption, Some, None};
ghost use Rattle.std.specs.List.{filter_map};
ghost use Rattle.std.specs.Option.{option_to_list};
ghost use Rattle.pv_ast.specs.Rules.Faults.{least};
ghost use Rattle.pv_ast.specs.declared.fault.Rule.TheVariants as rule;
ghost use Rattle.pv_ast.specs.Rules.Statements as stated;
ghost use Rattle.pv_ast.specs.Rules.Programs as programs;
ghost use Rattle.pv_types.specs.Environments.{environment_of};

use crate::clauses::formula;
use crate::environment::Environment;
use crate::labels::note_repeated;
use crate::members::members;
use crate::noting::note_if;
use crate::standing::in_condition;
use crate::{ClassEntry, ClassTable, Visible};
use pv_ast::{Class, Expr, Fault, Member, Program, Rule, Word};
use pv_base::NoMemory;
use std::alloc::Global;

/// The name of a member. What a thread of the class runs has none.
fn name_of(member: &Member) -> Option<Word>
    ensures { result ≡ programs.name_of_member member.now }
{
    match member {
        Member::Field(field) => Some(field.name),
        Member::Predicate(predicate) => Some(predicate.name),
        Member::Method(method) => Some(method.name),
        Member::Run(_) => None,
    }
}

/// Puts a name behind others, if there is one.
fn push_name(words: &mut Vec<Word>, name: Option<Word>) -> Result<(), NoMemory>
    ensures { OnOk result (words.new.items ≡ words.old.items ++ option_to_list name) }
{
    if let Some(word) = name {
        words.push(word)?;
    }
    Ok(())
}

/// The names of members, in their order.
fn names_of(alloc: Global, members: &[Member]) -> Result<Vec<Word>, NoMemory>
    ensures { IfOk result (λ words. words.items ≡ filter_map programs.name_of_member members.now) }
{
    let mut words = Vec::new(alloc);
    for member in members {
        push_name(&mut words, name_of(member))?;
    }
    Ok(words)
}

/// The names of classes, in their order.
fn class_names(alloc: Global, classes: &[Class]) -> Result<Vec<Word>, NoMemory>
    ensures { IfOk result (λ words. words.items ≡ map (λ c. c.name) classes.now) }
{
    let mut words = Vec::new(alloc);
    for class in classes {
        words.push(class.name)?;
    }
    Ok(words)
}

/// Notes each `run` behind a first one.
fn note_runs(members: &[Member], first: &mut Option<Fault>)
    ensures { first.new ≡ least first.old (programs.repeated_runs false members.now) }
{
    let mut found = false;
    for member in members {
        if let Member::Run(run) = member {
            note_if(found, first, Rule::Duplicate, run.word);
            found = true;
        }
    }
}

/// Notes the faults of a lock invariant, if there is one.
fn lock_invariant(
    alloc: Global,
    invariant: &Option<Expr>,
    environment: &Environment,
    first: &mut Option<Fault>,
) -> Result<(), NoMemory>
    ensures { OnOk result (first.new ≡ least first.old (programs.faults_of_lock_invariant (environment_of environment.now) invariant.now)) }
{
    match invariant {
        None => Ok(()),
        Some(e) => {
            let mut visible = Visible::new(alloc);
            formula(e, environment, in_condition(), &mut visible, first)
        }
    }
}

/// Notes the faults of a class.
fn class(
    alloc: Global,
    table: &ClassTable,
    entry: &ClassEntry,
    first: &mut Option<Fault>,
) -> Result<(), NoMemory>
    ensures { OnOk result (first.new ≡ least first.old (programs.faults_of_class table.now entry.now)) }
{
    let class = entry.class();
    let environment = Environment {
        table,
        class: class.name.name,
        here: Some(entry),
        result: None,
    };
    lock_invariant(alloc, &class.lock_invariant, &environment, first)?;
    let each = class.members.as_slice();
    let names = names_of(alloc, each)?;
    note_repeated(alloc, Rule::Duplicate, names.as_slice(), first)?;
    note_runs(each, first);
    members(alloc, each, &environment, first)
}

/// Notes the faults of classes.
fn classes(
    alloc: Global,
    table: &ClassTable,
    entries: &[ClassEntry],
    first: &mut Option<Fault>,
) -> Result<(), NoMemory>
    ensures { OnOk result (first.new ≡ least first.old (programs.faults_of_classes table.now entries.now)) }
{
    for entry in entries {
        class(alloc, table, entry, first)?;
    }
    Ok(())
}

/// Notes the faults of a program.
pub(crate) fn program(
    alloc: Global,
    program: &Program,
    first: &mut Option<Fault>,
) -> Result<(), NoMemory>
    ensures { OnOk result (first.new ≡ least first.old (programs.faults_of_program program.now)) }
{
    let names = class_names(alloc, program.classes.as_slice())?;
    note_repeated(alloc, Rule::Duplicate, names.as_slice(), first)?;
    let table = ClassTable::new(alloc, program)?;
    classes(alloc, &table, table.entries(), first)
}
