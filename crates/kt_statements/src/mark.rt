//! Where a scope is left.

/// How many locals were in scope, where the innermost scope began, and whether a loop was around.
#[derive(Clone, Copy)]
pub struct Mark {
    pub count: usize,
    pub start: usize,
    pub in_loop: bool,
}
