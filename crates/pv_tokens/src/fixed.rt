//! The numbers of the reserved words and of the symbols, in the order of the language's table:
//! the words, the four words behind a backslash, and the symbols, of which the longest match counts.

/// `class`
pub const CLASS: u32 = 0;
/// `int`
pub const INT: u32 = 1;
/// `boolean`
pub const BOOLEAN: u32 = 2;
/// `bool`
pub const BOOL: u32 = 3;
/// `void`
pub const VOID: u32 = 4;
/// `resource`
pub const RESOURCE: u32 = 5;
/// `requires`
pub const REQUIRES: u32 = 6;
/// `ensures`
pub const ENSURES: u32 = 7;
/// `context`
pub const CONTEXT: u32 = 8;
/// `loop_invariant`
pub const LOOP_INVARIANT: u32 = 9;
/// `lock_invariant`
pub const LOCK_INVARIANT: u32 = 10;
/// `if`
pub const IF: u32 = 11;
/// `else`
pub const ELSE: u32 = 12;
/// `while`
pub const WHILE: u32 = 13;
/// `for`
pub const FOR: u32 = 14;
/// `par`
pub const PAR: u32 = 15;
/// `barrier`
pub const BARRIER: u32 = 16;
/// `fork`
pub const FORK: u32 = 17;
/// `join`
pub const JOIN: u32 = 18;
/// `lock`
pub const LOCK: u32 = 19;
/// `unlock`
pub const UNLOCK: u32 = 20;
/// `commit`
pub const COMMIT: u32 = 21;
/// `fold`
pub const FOLD: u32 = 22;
/// `unfold`
pub const UNFOLD: u32 = 23;
/// `assert`
pub const ASSERT: u32 = 24;
/// `send`
pub const SEND: u32 = 25;
/// `recv`
pub const RECV: u32 = 26;
/// `return`
pub const RETURN: u32 = 27;
/// `new`
pub const NEW: u32 = 28;
/// `null`
pub const NULL: u32 = 29;
/// `this`
pub const THIS: u32 = 30;
/// `true`
pub const TRUE: u32 = 31;
/// `false`
pub const FALSE: u32 = 32;
/// `Perm`
pub const PERM: u32 = 33;
/// `write`
pub const WRITE: u32 = 34;
/// `idle`
pub const IDLE: u32 = 35;
/// `running`
pub const RUNNING: u32 = 36;
/// `committed`
pub const COMMITTED: u32 = 37;
/// `uncommitted`
pub const UNCOMMITTED: u32 = 38;
/// `run`
pub const RUN: u32 = 39;
/// `wait`
pub const WAIT: u32 = 40;
/// `notify`
pub const NOTIFY: u32 = 41;
/// `\result`
pub const RESULT: u32 = 42;
/// `\old`
pub const OLD: u32 = 43;
/// `\forall`
pub const FORALL: u32 = 44;
/// `\forall*`
pub const FORALL_STAR: u32 = 45;
/// `==>`
pub const IMPLIES: u32 = 46;
/// `**`
pub const STAR_STAR: u32 = 47;
/// `==`
pub const EQUAL: u32 = 48;
/// `!=`
pub const NOT_EQUAL: u32 = 49;
/// `<=`
pub const AT_MOST: u32 = 50;
/// `>=`
pub const AT_LEAST: u32 = 51;
/// `&&`
pub const AND_AND: u32 = 52;
/// `||`
pub const OR_OR: u32 = 53;
/// `..`
pub const DOTS: u32 = 54;
/// `{`
pub const OPEN_BRACE: u32 = 55;
/// `}`
pub const CLOSE_BRACE: u32 = 56;
/// `(`
pub const OPEN_PAREN: u32 = 57;
/// `)`
pub const CLOSE_PAREN: u32 = 58;
/// `[`
pub const OPEN_BRACKET: u32 = 59;
/// `]`
pub const CLOSE_BRACKET: u32 = 60;
/// `;`
pub const SEMICOLON: u32 = 61;
/// `:`
pub const COLON: u32 = 62;
/// `,`
pub const COMMA: u32 = 63;
/// `.`
pub const DOT: u32 = 64;
/// `=`
pub const ASSIGN: u32 = 65;
/// `<`
pub const LESS: u32 = 66;
/// `>`
pub const GREATER: u32 = 67;
/// `+`
pub const PLUS: u32 = 68;
/// `-`
pub const MINUS: u32 = 69;
/// `*`
pub const STAR: u32 = 70;
/// `!`
pub const BANG: u32 = 71;
/// `\`
pub const BACKSLASH: u32 = 72;
