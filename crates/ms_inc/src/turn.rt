/// How the solve of a turn ended.
#[derive(Clone, Copy, Debug, PartialEq, Eq)]
pub enum Outcome {
    /// An answer was listed.
    Sat,
    /// It is complete, and there is no answer.
    Unsat,
    /// It was cut before any answer was found.
    Unknown,
}

/// What came of the last turn.
#[derive(Clone, Copy, Debug, PartialEq, Eq)]
pub enum Last {
    /// There was none yet.
    Start,
    /// Its solve ended so.
    Ended(Outcome),
    /// Its grounding was refused.
    Refused,
}

/// A turn. Turns are numbered from 0.
#[derive(Clone, Copy, Debug, PartialEq, Eq)]
pub struct Turn {
    pub step: u64,
}
