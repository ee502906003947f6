//! The parts of lines, put behind what is to be written.
ghost use Rattle.std.specs.Prelude.{◌≡◌, ◌≤◌, ◌^◌, ◌++◌, length, OnOk};
ghost use Rattle.pv_tokens.specs.Bytes.{most_bytes};
ghost use Rattle.std.specs.Fmt.{decimal};
ghost use Rattle.pv_report.specs.Output.{name_text, place_text, span_text, check_text};
ghost use Rattle.pv_report.specs.Positions.{IsPosition};

use crate::places::{Position, position_of};
use itoa::Buffer;
use pv_base::{Name, Span};
use pv_names::Names;
use small_verdicts::SmallCheck;
use std::alloc::AllocError;

/// The text of a name. A name that the list has not has none.
fn text_of(names: &Names, name: Name) -> &[u8]
    ensures { result.now ≡ name_text names.now name }
{
    if (name.0 as usize) < names.len() {
        names.text(name)
    } else {
        &[]
    }
}

/// Puts the text of a name last.
pub fn put_name(output: &mut Vec<u8>, names: &Names, name: Name) -> Result<(), AllocError>
    ensures { OnOk result (output.new.items ≡ output.old.items ++ name_text names.now name) }
{
    output.extend_from_slice(text_of(names, name))
}

/// Puts the digits of a number last.
fn put_number(output: &mut Vec<u8>, number: u32) -> Result<(), AllocError>
    ensures { OnOk result (output.new.items ≡ output.old.items ++ decimal number) }
{
    let mut buffer = Buffer::new();
    output.extend_from_slice(buffer.format(number).as_bytes())
}

/// Puts a place last, and makes its position the near one.
pub fn put_place(
    output: &mut Vec<u8>,
    text: &[u8],
    at: u32,
    near: &mut Position,
) -> Result<(), AllocError>
    requires short { length text.now ≤ most_bytes }
    requires near { IsPosition text.now near.old }
    ensures put { OnOk result (output.new.items ≡ output.old.items ++ place_text text.now at) }
    ensures near { IsPosition text.now near.new }
{
    *near = position_of(text, *near, at);
    put_number(output, near.line)?;
    output.extend_from_slice(b":")?;
    put_number(output, near.column)
}

/// Puts a span last, and makes the position of its end the near one.
pub fn put_span(
    output: &mut Vec<u8>,
    text: &[u8],
    span: Span,
    near: &mut Position,
) -> Result<(), AllocError>
    requires short { length text.now ≤ most_bytes }
    requires near { IsPosition text.now near.old }
    ensures put { OnOk result (output.new.items ≡ output.old.items ++ span_text text.now span) }
    ensures near { IsPosition text.now near.new }
{
    put_place(output, text, span.from, near)?;
    output.extend_from_slice(b"-")?;
    put_place(output, text, span.to, near)
}

/// What is shown of a check.
pub fn text_of_check(check: SmallCheck) -> &'static [u8]
    ensures { result.now ≡ check_text check }
{
    match check {
        SmallCheck::Assert => b"Assert ",
        SmallCheck::Ensures => b"Ensures ",
    }
}
