//! What the calls answer.
ghost use Rattle.std.specs.Prelude.{◌≡◌, false};
ghost use Rattle.wakhurmi_c.specs.Numbers.{answer_of};

/// What a call came to.
#[derive(Clone, Copy, PartialEq, Eq)]
pub enum Answer {
    /// It did what it says.
    Done,
    /// It can't be done yet: another worker has what it takes.
    Busy,
    /// It couldn't be done, and its failed entry says so.
    Refused,
    /// It can't be done yet, and the service has been stopped.
    Stopped,
    /// Another worker was inside at this moment.
    Again,
    /// There wasn't enough memory.
    NoMemory,
    /// A number isn't in range, or the locks don't strictly rise.
    BadNumber,
    /// The worker isn't where it may make this call.
    Misused,
    /// A handle is empty.
    Empty,
    /// A handle that was to be filled is full.
    Full,
}

impl Answer {
    /// The number that C sees.
    pub(crate) fn number(self) -> u32
        ensures { answer_of result ≡ self }
    {
        match self {
            Answer::Done => 0,
            Answer::Busy => 1,
            Answer::Refused => 2,
            Answer::Stopped => 3,
            Answer::Again => 4,
            Answer::NoMemory => 5,
            Answer::BadNumber => 6,
            Answer::Misused => 7,
            Answer::Empty => 8,
            Answer::Full => 9,
        }
    }
}

/// What a call that may make an entry answers.
#[repr(C)]
#[derive(Clone, Copy)]
pub struct Told {
    /// The number of the answer.
    pub answer: u32,
    /// Whether it made an entry that can let a worker go on that found it couldn't.
    pub wakes: bool,
}

/// What a try came to.
#[derive(Clone, Copy)]
pub(crate) struct Outcome {
    pub answer: Answer,
    pub wakes: bool,
}

impl Outcome {
    /// An answer without an entry.
    pub(crate) fn without_entry(answer: Answer) -> Outcome
        ensures { result ≡ record { answer = answer; wakes = false } }
    {
        Outcome {
            answer,
            wakes: false,
        }
    }

    /// As C sees it.
    pub(crate) fn told(self) -> Told
        ensures answer { answer_of result.answer ≡ self.answer }
        ensures wakes { result.wakes ≡ self.wakes }
    {
        Told {
            answer: self.answer.number(),
            wakes: self.wakes,
        }
    }
}
