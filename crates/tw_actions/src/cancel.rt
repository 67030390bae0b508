//! How the messages of undone steps are cancelled.

/// How the messages of undone steps are cancelled.
#[derive(Clone, Copy, Debug, PartialEq, Eq)]
pub enum Cancel {
    /// Their anti-messages are made at once (Jefferson 1985).
    Aggressive,
    /// Their anti-messages are owed: they are made only once the sender has passed their time without sending the
    /// same messages again (Gafni 1988).
    Lazy,
}
