use crate::record::{Frame, Progress, Record};

// Why the key is withheld, in the order of the causes' numbers.
#[derive(Clone, Copy)]
pub enum Refusal {
    ShortOrUnmarked,
    OtherVersion,
    HeaderOutside,
    WrongLength,
    FieldOutside,
    CompressibilityCurve,
    ConductivityCurve,
    LoadTable,
    StartOffCurve,
    ShortBuffer,
    NoLayer,
    LoadOutside,
    StepOutside,
    StepTooLong,
    StepOffCurve,
    RunOutside,
    ShortJobBuffer,
    ReadingOutside,
    ElementOutside,
    StartNotSteady,
}

// Why a run stopped.
#[derive(Clone, Copy)]
pub enum Stop {
    AtEnd,
    BudgetUsed,
    NoStep,
    OffCurve,
}

// What a call asks: a load, a step, or a run to an end with a budget.
#[derive(Clone, Copy)]
pub enum Call {
    Load(u64),
    Step(u64),
    Run(u64, u64),
}

// What a call answers: done, a run's stop and number of steps, or a refusal.
#[derive(Clone, Copy)]
pub enum Answer {
    Done,
    Ran(Stop, u64),
    Refused(Refusal),
}

// How a run ended: its stop, its number of steps, and what it leaves of the layer beside the water.
#[derive(Clone, Copy)]
pub struct Ended {
    pub stop: Stop,
    pub steps: u64,
    pub progress: Progress,
}

// The numbers of the layer of an accepted description.
#[derive(Clone, Copy)]
pub struct Accepted {
    pub frame: Frame,
    pub progress: Progress,
}

// An answer with the record as the call leaves it.
#[derive(Clone, Copy)]
pub struct Answered {
    pub answer: Answer,
    pub after: Record,
}
