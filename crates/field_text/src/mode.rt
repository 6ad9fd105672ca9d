/// How forms are kept up to date with the server.
#[derive(Clone, Copy, Debug, PartialEq, Eq)]
pub enum Mode {
    /// Only the forms that were asked for are fetched.
    Manual,
    /// Newer versions of kept forms are fetched too.
    Previous,
    /// The kept forms become those that the server lists.
    Exact,
}
