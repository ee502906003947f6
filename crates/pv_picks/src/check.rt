/// What a refusal names: which rule a run or an interleaving breaks.
#[derive(Clone, Copy, Debug, PartialEq, Eq, Drop)]
pub enum Check {
    /// A formula reads a location that isn't held.
    Frame,
    /// A read without any permission.
    ReadPermission,
    /// A write without the whole permission.
    WritePermission,
    /// An access, a call or an action on null.
    Null,
    /// An index outside its array.
    Bounds,
    /// A negative length of a new array.
    Length,
    Assert,
    /// The precondition of a called method.
    Requires,
    /// The postcondition at the end of a method or of `run`.
    Ensures,
    /// An invariant where its loop is come to.
    LoopEntry,
    /// An invariant after a turn of its loop.
    LoopKeep,
    LockInvariant,
    /// A lock that isn't known to be committed.
    NotCommitted,
    /// A lock that isn't held.
    NotHeld,
    /// A commit without `uncommitted`.
    NotUncommitted,
    /// A fork without `idle`.
    NotIdle,
    /// A join without `running`.
    NotRunning,
    /// The precondition of `run`.
    ForkRequires,
    /// The precondition of a block at some position.
    BlockRequires,
    /// The postcondition of a block at a member's end.
    BlockEnsures,
    BarrierRequires,
    BarrierEnsures,
    /// The body of a folded predicate.
    Fold,
    /// An instance that isn't there.
    Unfold,
    /// The formula of a message.
    Send,
    /// Two threads at one location, one of them at a write.
    Race,
}
