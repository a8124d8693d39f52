ghost use Rattle.std.specs.Prelude.{◌≡◌};
ghost use Rattle.vocabulary.specs.Refusals.{number_of};

// Why the dispatcher says no. Each case has the one number under which it is told.
#[derive(Clone, Copy, PartialEq, Eq, Debug)]
pub enum Refusal {
    // a crew is not 1 to 16
    CrewSize = 1,
    // a worker is not below the crew's number
    UnknownWorker = 2,
    // the worker has an unanswered order
    UnansweredOrder = 3,
    // all nodes are taken
    NoFreeNode = 4,
    // 100,000,000 steps were counted, and the next one comes
    StepsUsedUp = 5,
    // picker and run differ in crew
    OtherCrew = 6,
    // a frame is empty or longer than 64
    FrameLength = 7,
    // a frame names a worker that is not of the crew
    ForeignWorker = 8,
    // a frame leaves a worker of the crew out
    WorkerLeftOut = 9,
    // a text breaks the format, or a hit its bounds
    Format = 10,
    // a line does not fit the output
    OutputFull = 11,
}

impl Refusal {
    // The number under which the refusal is told. It is a method: a `From` would hide the rule's word, number.
    pub fn number(self) -> u8
        ensures { result ≡ number_of self }
    {
        self as u8
    }
}
