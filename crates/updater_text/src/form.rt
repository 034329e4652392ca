/// How a text is laid out.
#[derive(Clone, Copy, Debug, PartialEq, Eq)]
pub enum Form {
    /// Lines for a reader, in which a control character of a value stands as `?`.
    Readable,
    /// Assignments that a shell reads, their values quoted.
    Shell,
}
