/// The forms of a journal, which its first line tells.
#[derive(Clone, Copy)]
pub enum Kit {
    /// A request is told by its number.
    First,
    /// A request is told by its number and by how many threads it woke.
    Second,
}
