//! Laws of the tokens of texts, of which calls are made: each function proves its clauses, and answers nothing.
ghost use Rattle.pv_tokens.specs.Progress.{EachIsRead, OneReading, OneFault, NeverBoth};
ghost use Rattle.pv_tokens.specs.Words.{NumbersArePlaces};

/// Whatever the names before, each text has tokens or a first fault, and never both; the tokens, the names behind them and the fault
/// are the only ones.
pub fn one_reading()
    ensures some { EachIsRead }
    ensures one { OneReading }
    ensures one_fault { OneFault }
    ensures never_both { NeverBoth }
{}

/// The table of the reserved words and that of the symbols give each its number.
pub fn numbers_are_places()
    ensures { NumbersArePlaces }
{}
