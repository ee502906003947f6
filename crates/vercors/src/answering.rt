//! The answer to the words, before any of it is written.
ghost use Rattle.std.specs.Prelude.{◌≡◌, ◌↔◌, ◌≤◌, ◌<◌, ◌^◌, length, IfOk};
ghost use Rattle.pv_tokens.specs.Bytes.{most_bytes};
ghost use Rattle.pv_io.specs.Count.{HasRisen, last_count};
ghost use Rattle.pv_ast.specs.Rules.WellFormed.{most_literals};
ghost use Rattle.pv_ast.specs.Measures.{literals_of_program};
ghost use Rattle.pv_words.specs.Words.{NoVerify};
ghost use Rattle.vercors.specs.Texts.{SpellsSmallProgram, SpellsNone, SpellsOnly};
ghost use Rattle.vercors.specs.Refusals.{IsRefused, HasOnly, HasNoRefusal};
ghost use Rattle.vercors.specs.Loading.{IsFaultAnswer};
ghost use Rattle.vercors.specs.Answers.{IsTextAnswer, IsFileAnswer, IsAnswer, told_of};

use crate::ending::{Answer, Status, status_of};
use crate::reading::read_program;
use pv_ast::Program;
use pv_base::NoMemory;
use pv_io::{LoadFault, Shelf, load};
use pv_names::Names;
use pv_report::{Refusal, TextFault, line_of_refusal, report};
use pv_words::{Words, file_to_verify};
use small_meaning::safe_where_no_run_fails;
use small_typing::keeps_small_rules;
use small_verdicts::judge;
use sqlite_items::Items;
use std::alloc::Global;

/// How many bytes a file may have.
const LIMIT: u32 = 1_048_576;

const USAGE: &[u8] =
    b"usage: vercors verify FILE | run FILE SCHEDULE | explain FILE UNIT | big N\n";

const NO_FILE: &[u8] = b"NoFile\n";

const READ_FAULT: &[u8] = b"ReadFault\n";

const TOO_LARGE: &[u8] = b"TooLarge\n";

/// The answer of one line.
fn one_line(alloc: Global, status: Status, line: &[u8]) -> Result<Answer, NoMemory>
    ensures status { IfOk result (λ answer. answer.status ≡ status) }
    ensures output { IfOk result (λ answer. answer.output ≡ line.now) }
{
    let output = Items::from_slice(alloc, line)?;
    Ok(Answer { status, output })
}

/// The answer to a text that spells the program.
fn answer_to_program(
    alloc: Global,
    text: &[u8],
    names: &Names,
    program: &Program,
) -> Result<Answer, NoMemory>
    requires short { length text.now ≤ most_bytes }
    requires spelled { SpellsSmallProgram text.now names.now program.now }
    requires one { SpellsOnly text.now program.now }
    requires unrefused { HasNoRefusal text.now }
    requires few { literals_of_program program.now ≤ most_literals }
    ensures { IfOk result (λ answer. IsTextAnswer text.now answer.status answer.output) }
{
    safe_where_no_run_fails();
    keeps_small_rules(program);
    let judged = judge(alloc, program)?;
    let status = status_of(judged.as_slice());
    let output = report(alloc, text, names, judged.as_slice())?;
    Ok(Answer { status, output })
}

/// The answer to a text that is refused.
fn answer_to_refusal(alloc: Global, text: &[u8], refusal: Refusal) -> Result<Answer, NoMemory>
    requires short { length text.now ≤ most_bytes }
    requires refused { IsRefused text.now refusal }
    requires only { HasOnly text.now refusal }
    requires none { SpellsNone text.now }
    ensures { IfOk result (λ answer. IsTextAnswer text.now answer.status answer.output) }
{
    let output = line_of_refusal(alloc, text, refusal)?;
    Ok(Answer {
        status: Status::TextRefused,
        output,
    })
}

/// The answer to a text.
fn answer_to_text(alloc: Global, text: &[u8]) -> Result<Answer, NoMemory>
    requires { length text.now ≤ most_bytes }
    ensures { IfOk result (λ answer. IsTextAnswer text.now answer.status answer.output) }
{
    let mut names = Names::new(alloc);
    match read_program(alloc, text, &mut names) {
        Ok(program) => answer_to_program(alloc, text, &names, &program),
        Err(TextFault::Refused(refusal)) => answer_to_refusal(alloc, text, refusal),
        Err(TextFault::NoMemory) => Err(NoMemory),
    }
}

/// The answer where a file was not loaded.
fn answer_to_fault(alloc: Global, fault: LoadFault) -> Result<Answer, NoMemory>
    ensures { IfOk result (λ answer. IsFaultAnswer fault answer.status answer.output) }
{
    match fault {
        LoadFault::NoFile => one_line(alloc, Status::NoFile, NO_FILE),
        LoadFault::TooLarge => one_line(alloc, Status::TooLarge, TOO_LARGE),
        LoadFault::Failed => one_line(alloc, Status::ReadFault, READ_FAULT),
        LoadFault::NoMemory => Err(NoMemory),
    }
}

/// The answer to the file of that name.
fn answer_to_file<F: Shelf>(alloc: Global, file: &[u8], shelf: &mut F) -> Result<Answer, NoMemory>
    requires hits_left { F.hits shelf.old < last_count }
    requires misses_left { F.misses shelf.old < last_count }
    ensures right { IfOk result (λ answer. IsFileAnswer (told_of (F.files shelf.old) file.now) answer.status answer.output) }
    ensures no_file { IfOk result (λ answer. (answer.status ≡ Status.NoFile) ↔ (F.misses shelf.old < F.misses shelf.new)) }
    ensures too_large { IfOk result (λ answer. (answer.status ≡ Status.TooLarge) ↔ ((F.hits shelf.old < F.hits shelf.new) × (most_bytes < F.taken shelf.new))) }
    ensures read_fault { IfOk result (λ answer. answer.status ≡ Status.ReadFault → HasRisen (F.faults shelf.old) (F.faults shelf.new)) }
    ensures keeps_files { F.files shelf.new ≡ F.files shelf.old }
    ensures never_falls { F.faults shelf.old ≤ F.faults shelf.new }
{
    match load(alloc, shelf, file, LIMIT) {
        Ok(text) => answer_to_text(alloc, text.as_slice()),
        Err(fault) => answer_to_fault(alloc, fault),
    }
}

/// The answer to the words.
pub fn answer_to<F: Shelf>(alloc: Global, words: &Words, shelf: &mut F) -> Result<Answer, NoMemory>
    requires hits_left { F.hits shelf.old < last_count }
    requires misses_left { F.misses shelf.old < last_count }
    ensures right { IfOk result (λ answer. IsAnswer (F.files shelf.old) words.now answer.status answer.output) }
    ensures words_wrong { IfOk result (λ answer. (answer.status ≡ Status.WordsWrong) ↔ NoVerify words.now) }
    ensures no_file { IfOk result (λ answer. (answer.status ≡ Status.NoFile) ↔ (F.misses shelf.old < F.misses shelf.new)) }
    ensures too_large { IfOk result (λ answer. (answer.status ≡ Status.TooLarge) ↔ ((F.hits shelf.old < F.hits shelf.new) × (most_bytes < F.taken shelf.new))) }
    ensures read_fault { IfOk result (λ answer. answer.status ≡ Status.ReadFault → HasRisen (F.faults shelf.old) (F.faults shelf.new)) }
    ensures keeps_files { F.files shelf.new ≡ F.files shelf.old }
    ensures never_falls { F.faults shelf.old ≤ F.faults shelf.new }
    ensures unasked { NoVerify words.now → shelf.new ≡ shelf.old }
{
    match file_to_verify(words) {
        Some(file) => answer_to_file(alloc, file, shelf),
        None => one_line(alloc, Status::WordsWrong, USAGE),
    }
}
