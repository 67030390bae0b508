//! What a record tells of.

/// What a component did at a stamp (Chow and Zeigler 1994).
#[derive(Clone, Copy, Debug, PartialEq, Eq)]
pub enum RecordKind {
    /// An output.
    Out,
    /// An internal transition: its own time came, and no input.
    Int,
    /// An external transition: input came before its own time.
    Ext,
    /// A confluent transition: its own time came, and input.
    Con,
}
