//! What the grammar of messages promises, for the proofs of callers. None of these does anything.

ghost use Rattle.dbus_wire.specs.Laws.{OneMessage, NoPrefix, OneInOrder};

/// One text is a spelling of at most one message, and no spelling begins another.
pub fn one_message()
    ensures one { OneMessage }
    ensures whole { NoPrefix }
{}

/// A message has one spelling at most whose fields stand in the order of their codes: what
/// `write_message` gives, and `read_message` reads.
pub fn one_in_order()
    ensures { OneInOrder }
{}
