use thiserror::Error;

/// Why a text is no key file. Lines are counted from 1.
#[derive(Clone, Copy, Debug, PartialEq, Eq, Error)]
pub enum KeyFault {
    /// It has more than 1,048,576 bytes: so many.
    #[error("{length} bytes are too long")]
    TooLong { length: u64 },
    /// It is not UTF-8: its longest valid front has so many bytes.
    #[error("byte {at} is not UTF-8")]
    NotUtf8 { at: u64 },
    /// The line is neither empty, a comment, a group nor an entry.
    #[error("line {number} is bad")]
    BadLine { number: u64 },
    /// The line is an entry, and no group stands above it.
    #[error("line {number} stands before a group")]
    KeyBeforeGroup { number: u64 },
    /// The line is an entry whose value has a backslash before another letter, or at its end.
    #[error("line {number} has a bad escape")]
    BadEscape { number: u64 },
}
