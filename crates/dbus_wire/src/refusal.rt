/// Why bytes are no message.
#[derive(Clone, Copy, Debug, PartialEq, Eq)]
pub enum WireRefusal {
    /// No message begins so.
    Bad,
    /// The message has more than 1,048,576 bytes: so many.
    TooLarge { length: u64 },
}

/// Why a message was not written.
#[derive(Clone, Copy, Debug, PartialEq, Eq)]
pub enum WriteRefusal {
    /// The message has more than 1,048,576 bytes: so many.
    TooLarge { length: u64 },
}
