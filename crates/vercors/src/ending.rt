//! How a call ends.
ghost use Rattle.std.specs.Prelude.{◌≡◌};
ghost use Rattle.vercors.specs.Statuses.{code_of, status_of};

use pv_io::Bytes;
use pv_report::some_fail;
use small_verdicts::Judged;

/// How a call ends. Its exit status is the place of the variant, counted from 0.
#[derive(Clone, Copy, Debug, PartialEq, Eq, Drop)]
pub enum Status {
    /// The text spells a program, and every verdict is Pass or Empty.
    Passed,
    /// Some verdict is Fail.
    Refused,
    /// The text spells no small program without faults.
    TextRefused,
    /// Some verdict is open, since there are too many paths.
    Splits,
    /// The words are none of the forms.
    WordsWrong,
    /// There is no file of that name.
    NoFile,
    /// The shelf failed.
    ReadFault,
    /// The sink failed, and a prefix of the output was written.
    WriteFault,
    /// The file has more than 1,048,576 bytes.
    TooLarge,
    /// Memory ran out, and nothing was written.
    NoMemory,
    /// A replay went wrong.
    WentWrong,
    /// The schedule of a replay breaks a rule.
    ScheduleRefused,
    /// A value of a replay is outside 128 bits.
    Overflow,
    /// A range of a replay is too long.
    RangeTooLong,
}

impl Status {
    /// The exit status.
    pub fn code(self) -> u8
        ensures { result ≡ code_of self }
    {
        self as u8
    }
}

/// A status, and what is to be written with it.
#[derive(Drop)]
pub struct Answer {
    pub status: Status,
    pub output: Bytes,
}

/// The status by the verdicts.
pub fn status_of(judged: &[Judged]) -> Status
    ensures { result ≡ status_of judged.now }
{
    if some_fail(judged) {
        Status::Refused
    } else {
        Status::Passed
    }
}
