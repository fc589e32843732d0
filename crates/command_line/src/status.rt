//! What a program ends with.

ghost use Rattle.std.specs.Prelude.{◌≡◌};
ghost use Rattle.command_line.specs.Codes.{code_of};

/// How a program ended, as it tells the system. A number means the same of each program, and none has all of them.
#[derive(Clone, Copy, Debug, PartialEq, Eq)]
pub enum Status {
    /// All was done: 0.
    Done,
    /// The scheduler refused: 1.
    Refused,
    /// The words are of no form, or say what can't be: 2.
    WrongWords,
    /// The store failed as it was opened: 3.
    StoreFailed,
    /// A read failed: 4.
    ReadFailed,
    /// A write failed: 5.
    WriteFailed,
    /// The store's rows say no farm: 6.
    BadStore,
    /// Memory ran out: 7.
    NoMemory,
    /// The most that one call takes is spent: 8.
    Spent,
    /// No connection was had: 9.
    NoConnection,
    /// The input ended before a reply: 10.
    InputEnded,
    /// What came is no reply: 11.
    NoReply,
    /// The file of a job spec can't be read as a text: 13.
    UnreadableSpec,
}

impl Status {
    /// The number that the system is told.
    pub fn code(self) -> u8
        ensures { result ≡ code_of self }
    {
        match self {
            Status::Done => 0,
            Status::Refused => 1,
            Status::WrongWords => 2,
            Status::StoreFailed => 3,
            Status::ReadFailed => 4,
            Status::WriteFailed => 5,
            Status::BadStore => 6,
            Status::NoMemory => 7,
            Status::Spent => 8,
            Status::NoConnection => 9,
            Status::InputEnded => 10,
            Status::NoReply => 11,
            Status::UnreadableSpec => 13,
        }
    }
}
