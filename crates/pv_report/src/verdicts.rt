//! The report of verdicts.
ghost use Rattle.std.specs.Prelude.{◌≡◌, ◌≤◌, ◌^◌, ◌++◌, length, IfOk, OnOk};
ghost use Rattle.pv_tokens.specs.Bytes.{most_bytes};
ghost use Rattle.pv_report.specs.Output.{unit_text, text_before, text_behind, verdict_line, is_fail, some_fail, last_line, report_of};
ghost use Rattle.pv_report.specs.Positions.{IsPosition};

use crate::lines::{put_name, put_span, text_of_check};
use crate::places::{Position, START};
use pv_io::Bytes;
use pv_names::Names;
use small_verdicts::{Judged, SmallVerdict};
use sqlite_items::Items;
use std::alloc::{AllocError, Global};

/// Puts what stands before the unit of a verdict last.
fn put_before(output: &mut Vec<u8>, verdict: &SmallVerdict) -> Result<(), AllocError>
    ensures { OnOk result (output.new.items ≡ output.old.items ++ text_before verdict.now) }
{
    match verdict {
        SmallVerdict::Pass => output.extend_from_slice(b"Pass "),
        SmallVerdict::Empty => output.extend_from_slice(b"Empty "),
        SmallVerdict::Fail(check, _, _) => {
            output.extend_from_slice(b"Fail ")?;
            output.extend_from_slice(text_of_check(*check))
        }
    }
}

/// Puts what stands behind the unit of a verdict last.
fn put_behind(
    output: &mut Vec<u8>,
    text: &[u8],
    verdict: &SmallVerdict,
    near: &mut Position,
) -> Result<(), AllocError>
    requires short { length text.now ≤ most_bytes }
    requires near { IsPosition text.now near.old }
    ensures put { OnOk result (output.new.items ≡ output.old.items ++ text_behind text.now verdict.now) }
    ensures near { IsPosition text.now near.new }
{
    match verdict {
        SmallVerdict::Pass | SmallVerdict::Empty => Ok(()),
        SmallVerdict::Fail(_, span, _) => {
            output.extend_from_slice(b" ")?;
            put_span(output, text, *span, near)
        }
    }
}

/// Puts the unit of a verdict last, as `Class.method`.
fn put_unit(output: &mut Vec<u8>, names: &Names, judged: &Judged) -> Result<(), AllocError>
    ensures { OnOk result (output.new.items ≡ output.old.items ++ unit_text names.now judged.now) }
{
    put_name(output, names, judged.class)?;
    output.extend_from_slice(b".")?;
    put_name(output, names, judged.method)
}

/// Puts the line of a verdict last.
fn put_line(
    output: &mut Vec<u8>,
    text: &[u8],
    names: &Names,
    judged: &Judged,
    near: &mut Position,
) -> Result<(), AllocError>
    requires short { length text.now ≤ most_bytes }
    requires near { IsPosition text.now near.old }
    ensures put { OnOk result (output.new.items ≡ output.old.items ++ verdict_line text.now names.now judged.now) }
    ensures near { IsPosition text.now near.new }
{
    put_before(output, &judged.verdict)?;
    put_unit(output, names, judged)?;
    put_behind(output, text, &judged.verdict, near)?;
    output.extend_from_slice(b"\n")
}

/// Whether a verdict is Fail.
fn is_fail(verdict: &SmallVerdict) -> bool
    ensures { result ≡ is_fail verdict.now }
{
    match verdict {
        SmallVerdict::Pass | SmallVerdict::Empty => false,
        SmallVerdict::Fail(_, _, _) => true,
    }
}

/// Whether some verdict is Fail.
pub fn some_fail(judged: &[Judged]) -> bool
    ensures { result ≡ some_fail judged.now }
{
    judged.iter().any(|one| is_fail(&one.verdict))
}

/// The last line of a report.
fn last_line(fails: bool) -> &'static [u8]
    ensures { result.now ≡ last_line fails }
{
    if fails { b"Refused\n" } else { b"Pass\n" }
}

/// A line for each verdict, and the last line. One pass over the text, where the verdicts are in its order.
pub fn report(
    alloc: Global,
    text: &[u8],
    names: &Names,
    judged: &[Judged],
) -> Result<Bytes, AllocError>
    requires { length text.now ≤ most_bytes }
    ensures { IfOk result (λ output. output ≡ report_of text.now names.now judged.now) }
{
    let mut output = Vec::new(alloc);
    let mut near = START;
    for one in judged {
        put_line(&mut output, text, names, one, &mut near)?;
    }
    output.extend_from_slice(last_line(some_fail(judged)))?;
    Ok(Items::from_vec(output))
}
