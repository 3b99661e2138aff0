//! What the history keeps of a call, and the receipt that its caller gets.

/// One call in the history of a lock: the step that was asked for, and the machine's answer.
#[derive(Drop)]
pub struct Entry<S, A> {
    pub step: S,
    pub answer: A,
}

/// What a call that was made tells.
#[derive(Drop)]
pub struct Receipt<A> {
    /// The place of the call in the history, where the first call has the place 1.
    pub at: u64,
    /// What the machine answered.
    pub answer: A,
    /// How many calls the seat had seen as the call began, which is less than `at`.
    pub seen_len: u64,
}
