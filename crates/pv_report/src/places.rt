//! Lines and columns of a text's places, each found from the place before it.
ghost use Rattle.std.specs.Prelude.{◌≡◌, ◌+◌, ◌<◌, ◌≤◌, ◌^◌, length};
ghost use Rattle.pv_tokens.specs.Bytes.{most_bytes};
ghost use Rattle.pv_base.specs.Place.{line_at, column_at};

use pv_base::line_col;

/// A place of a text, in bytes from 0, and its line and column, counted from 1.
#[derive(Clone, Copy, Debug, PartialEq, Eq, Drop)]
pub struct Position {
    pub at: u32,
    pub line: u32,
    pub column: u32,
}

ghost use Rattle.pv_report.specs.Positions.{IsPosition};

/// The start of a text.
pub const START: Position = Position {
    at: 0,
    line: 1,
    column: 1,
};

const LINE_FEED: u8 = b'\n';

/// The position one byte further.
fn next(text: &[u8], position: Position) -> Position
    requires short { length text.now ≤ most_bytes }
    requires known { IsPosition text.now position }
    requires within { position.at < length text.now }
    ensures place { result.at ≡ position.at + 1 }
    ensures known { IsPosition text.now result }
{
    let at = position.at + 1;
    if text[position.at as usize] == LINE_FEED {
        Position {
            at,
            line: position.line + 1,
            column: 1,
        }
    } else {
        Position {
            at,
            line: position.line,
            column: position.column + 1,
        }
    }
}

/// The position of a place, found from one that isn't behind it. One pass over the bytes between them.
fn forward(text: &[u8], from: Position, at: u32) -> Position
    requires short { length text.now ≤ most_bytes }
    requires known { IsPosition text.now from }
    requires order { from.at ≤ at }
    requires within { at ≤ length text.now }
    ensures place { result.at ≡ at }
    ensures known { IsPosition text.now result }
{
    let mut position = from;
    while position.at < at {
        position = next(text, position);
    }
    position
}

/// The position of a place; past the end of the text, of its end. It is found from `near` where that isn't behind it, and
/// else from the start.
pub fn position_of(text: &[u8], near: Position, at: u32) -> Position
    requires short { length text.now ≤ most_bytes }
    requires near { IsPosition text.now near }
    ensures line { result.line ≡ line_at text.now at }
    ensures column { result.column ≡ column_at text.now at }
    ensures known { IsPosition text.now result }
{
    let at = at.min(text.len() as u32);
    if near.at <= at {
        return forward(text, near, at);
    }
    let (line, column) = line_col(text, at);
    Position { at, line, column }
}
