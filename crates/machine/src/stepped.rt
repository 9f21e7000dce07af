use verdicts::ThreadEnd;

/// What the try of one step came to.
#[derive(Clone, Copy, Debug, PartialEq, Eq)]
pub enum Stepped {
    /// The step was made.
    Made,
    /// No word is there yet, or there is too little room: nothing has changed.
    NotYet,
    /// The step was made, and the side has ended with it.
    MadeLast(ThreadEnd),
}
