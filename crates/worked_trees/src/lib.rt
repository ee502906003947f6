//! What worked programs become: each function proves its clause by working a tree out, node by node, and answers nothing. The core
//! trees were worked out apart from the definitions.
#![tactic(auto)]

ghost use Rattle.worked_trees.specs.Programs.{ObjectsBecome, ArraysBecome, ThreadsBecome, WitnessesBecome};

/// Programs of objects and fields.
pub fn objects_become()
    ensures { ObjectsBecome }
{}

/// Programs of arrays and quantifiers.
pub fn arrays_become()
    ensures { ArraysBecome }
{}

/// Programs of locks, blocks, barriers and messages.
pub fn threads_become()
    ensures { ThreadsBecome }
{}

/// Small programs that show what soundness speaks of: a lock that is handed on, a barrier, a message, a list, and two that aren't safe.
pub fn witnesses_become()
    ensures { WitnessesBecome }
{}
