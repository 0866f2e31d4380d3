//! What a search finds that may also give up.

/// What a search finds that may also give up.
#[derive(Clone, Copy)]
pub enum Found<T> {
    /// The search is given up, mostly since a number that it makes doesn't fit. This says nothing.
    GaveUp,
    /// There is nothing to find.
    Nothing,
    This(T),
}
