//! The statuses that the program ends with.
ghost use Rattle.std.specs.Prelude.{◌≡◌};
ghost use Rattle.command_answers.specs.Lines.{number_of};

use plan_reader::PlanRefusal;

/// How a call of the program ended.
#[derive(Clone, Copy)]
pub enum Status {
    /// Every task passed; or a worker's requests were all answered, up to a Stop or to the end of the input between
    /// two frames; or all entries of the checked history are lawful; or the recorded run would
    /// give the same; or the whole plan was made.
    Passed,
    /// A task failed or was skipped.
    TaskFailed,
    /// The words are no command.
    BadWords,
    /// The plan was refused.
    BadPlan(PlanRefusal),
    /// There is no file of the plan's name.
    NoPlan,
    /// The outside failed while the plan was read.
    PlanFault,
    /// The sink failed. What it had taken by then is the beginning of the text, or of the replies.
    SinkFault,
    /// A worker found neither a request nor a Stop at this place of its input, or its input gave 2^40 bytes. Each
    /// request before it was answered.
    BadFrame(u64),
    /// The input of a worker, of a check or of a recorded run failed. A worker has answered each request that had come whole.
    SourceFault,
    /// The entry of this number is the first of the history of the input that isn't allowed after those before it, or
    /// the text stops being a history at this number.
    NotLawful(u64),
    /// The entry of this number is the first of the recorded run whose unit gives something else today.
    Differs(u64),
    /// The outside failed when the file of this unit of the recorded run was to be read.
    FileFault(u32),
    /// There was no memory. Nothing was written, but by a worker its replies up to then.
    NoMemory,
}

impl Status {
    /// The exit status of the program.
    pub fn number(&self) -> u8
        ensures { result ≡ number_of self.now }
    {
        match self {
            Status::Passed => 0,
            Status::TaskFailed => 1,
            Status::BadWords => 2,
            Status::BadPlan(_) => 3,
            Status::NoPlan => 4,
            Status::PlanFault => 5,
            Status::SinkFault => 6,
            Status::BadFrame(_) => 7,
            Status::SourceFault => 8,
            Status::NotLawful(_) => 9,
            Status::NoMemory => 10,
            Status::Differs(_) => 11,
            Status::FileFault(_) => 12,
        }
    }
}
