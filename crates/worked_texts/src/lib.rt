//! Worked programs as they are read: each function proves its clause by computing, and answers nothing.
#![tactic(auto)]

ghost use Rattle.worked_texts.specs.Bytes.{TextsAreTokens};
ghost use Rattle.worked_texts.specs.Readings.{ObjectsRead, ArraysRead, ThreadsRead, WitnessesRead};

/// Programs of objects and fields.
pub fn objects_are_read()
    ensures { ObjectsRead }
{}

/// Programs of arrays and quantifiers.
pub fn arrays_are_read()
    ensures { ArraysRead }
{}

/// Programs of locks, blocks, barriers and messages.
pub fn threads_are_read()
    ensures { ThreadsRead }
{}

/// Small programs that show what soundness speaks of: a lock that is handed on, a barrier, a message, a list, and two that aren't safe.
pub fn witnesses_are_read()
    ensures { WitnessesRead }
{}

/// Three texts, byte by byte, are the tokens of their programs.
pub fn texts_are_tokens()
    ensures { TextsAreTokens }
{}
