ghost use Rattle.std.specs.Prelude.{◌≡◌, not, ◌++◌, [], ◌∷◌, OnOk, IfOk};
ghost use Rattle.pv_ast.specs.declared.fault.Rule.TheVariants as rules;
ghost use Rattle.pv_ast.specs.Rules.Faults.{least};
ghost use Rattle.pv_ast.specs.Rules.Statements as stated;
ghost use Rattle.pv_types.specs.Walks.{labels_in};
ghost use Rattle.pv_types.specs.Sets.{HasLabels};

use crate::noting::{note_if, note_unless};
use crate::sets::NameSet;
use pv_ast::{Fault, Rule, Word};
use pv_base::NoMemory;
use std::alloc::Global;

/// The labels of messages, in the order of the text: those of `send` and those of `recv`.
#[derive(Drop)]
pub(crate) struct Messages {
    pub alloc: Global,
    pub sent: Vec<Word>,
    pub received: Vec<Word>,
}

impl Messages {
    pub(crate) fn new(alloc: Global) -> Messages
        ensures { labels_in result ≡ stated.no_messages }
    {
        Messages {
            alloc,
            sent: Vec::new(alloc),
            received: Vec::new(alloc),
        }
    }
}

/// Notes each word that has the name of an earlier one.
pub(crate) fn note_repeated(
    alloc: Global,
    rule: Rule,
    words: &[Word],
    first: &mut Option<Fault>,
) -> Result<(), NoMemory>
    ensures { OnOk result (first.new ≡ least first.old (stated.repeated rule words.now)) }
{
    let mut names = NameSet::new(alloc);
    for word in words {
        let fresh = names.insert(word.name)?;
        note_unless(fresh, first, rule, word.span);
    }
    Ok(())
}

/// The names of words.
fn names_of(alloc: Global, words: &[Word]) -> Result<NameSet, NoMemory>
    ensures { IfOk result (λ names. HasLabels names words.now) }
{
    let mut names = NameSet::new(alloc);
    for word in words {
        names.insert(word.name)?;
    }
    Ok(names)
}

/// Notes each word whose name isn't among the labels.
fn note_unknown(
    alloc: Global,
    labels: &[Word],
    words: &[Word],
    first: &mut Option<Fault>,
) -> Result<(), NoMemory>
    ensures { OnOk result (first.new ≡ least first.old (stated.unknown_labels labels.now words.now)) }
{
    let names = names_of(alloc, labels)?;
    for word in words {
        note_unless(names.has(word.name), first, Rule::UnknownName, word.span);
    }
    Ok(())
}

/// Notes the faults of the messages of a counted loop: a label is sent once and received once, and what is received is sent.
pub(crate) fn note_messages(messages: &Messages, first: &mut Option<Fault>) -> Result<(), NoMemory>
    ensures { OnOk result (first.new ≡ least first.old (stated.faults_of_messages (labels_in messages.now))) }
{
    let alloc = messages.alloc;
    let sent = messages.sent.as_slice();
    let received = messages.received.as_slice();
    note_repeated(alloc, Rule::MessageRule, sent, first)?;
    note_repeated(alloc, Rule::MessageRule, received, first)?;
    note_unknown(alloc, sent, received, first)
}
