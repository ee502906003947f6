ghost use Rattle.std.specs.Prelude.{◌≡◌, ◌&&◌, not, OnOk};
ghost use Rattle.pv_ast.specs.declared.PvType.TheVariants as pv;
ghost use Rattle.pv_ast.specs.Rules.Faults.{least, both};
ghost use Rattle.pv_ast.specs.declared.scope.Declaration.TheVariants as how;
ghost use Rattle.pv_ast.specs.Rules.Scoping as scoping;
ghost use Rattle.pv_ast.specs.Rules.Statements as stated;
ghost use Rattle.pv_types.specs.Growth.{Extends};
ghost use Rattle.pv_types.specs.Environments.{environment_of};

use crate::Visible;
use crate::environment::Environment;
use crate::noting::note_if;
use crate::rights::expression;
use pv_ast::{Declaration, Declared, Fault, Need, PvType, Range, Rule, Word};
use pv_base::NoMemory;

/// Notes the faults of the bounds of a range.
pub(crate) fn bounds(
    range: &Range,
    environment: &Environment,
    visible: &mut Visible,
    first: &mut Option<Fault>,
) -> Result<(), NoMemory>
    ensures found { OnOk result (first.new ≡ least first.old (stated.faults_of_range (environment_of environment.now) visible.old range.now)) }
    ensures same { OnOk result (visible.new ≡ visible.old) }
{
    let an_int = Need::Exactly(PvType::Int);
    expression(&range.low, environment, an_int, visible, first)?;
    expression(&range.high, environment, an_int, visible, first)
}

/// Notes a new name that is in scope.
pub(crate) fn note_shadows(word: Word, visible: &Visible, first: &mut Option<Fault>)
    ensures { first.new ≡ least first.old (stated.shadows visible.now word) }
{
    note_if(
        visible.is_visible(word.name),
        first,
        Rule::Shadows,
        word.span,
    );
}

/// Brings a variable into scope.
pub(crate) fn declare(
    how: Declaration,
    word: Word,
    kind: PvType,
    visible: &mut Visible,
) -> Result<(), NoMemory>
    ensures declared { OnOk result (visible.new ≡ scoping.declare_variable how visible.old word.name kind) }
    ensures extends { OnOk result (Extends visible.old visible.new) }
{
    let declared = Declared {
        declaration: how,
        kind,
    };
    visible.declare(word.name, declared)
}

/// Brings a loop variable into scope, and notes where it is in scope already.
pub(crate) fn loop_variable(
    word: Word,
    visible: &mut Visible,
    first: &mut Option<Fault>,
) -> Result<(), NoMemory>
    ensures found { OnOk result (first.new ≡ least first.old (stated.shadows visible.old word)) }
    ensures declared { OnOk result (visible.new ≡ stated.with_loop_variable visible.old word) }
    ensures extends { OnOk result (Extends visible.old visible.new) }
{
    note_shadows(word, visible, first);
    declare(Declaration::LoopVariable, word, PvType::Int, visible)
}

/// Brings a block's name into scope, if it has one, and notes where it is in scope already.
pub(crate) fn block_name(
    name: &Option<Word>,
    visible: &mut Visible,
    first: &mut Option<Fault>,
) -> Result<(), NoMemory>
    ensures found { OnOk result (first.new ≡ least first.old (stated.shadows_option visible.old name.now)) }
    ensures declared { OnOk result (visible.new ≡ stated.with_block visible.old name.now) }
    ensures extends { OnOk result (Extends visible.old visible.new) }
{
    match name {
        None => Ok(()),
        Some(word) => {
            note_shadows(*word, visible, first);
            declare(Declaration::Block, *word, PvType::Null, visible)
        }
    }
}
