// What a step of a script came to.

/// What a step of a script came to.
#[derive(Clone, Copy)]
pub enum FlowNext {
    /// The run goes on.
    More,
    /// The script is at its end.
    Finished,
    /// It ended by this exception, raised on this line.
    Raised(u32, u32),
    /// What is first costs more than is left.
    Spent,
    /// An operation asked for what is not there.
    Unanswered,
}
