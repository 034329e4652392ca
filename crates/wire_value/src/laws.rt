//! What the grammar of values promises, for the proofs of callers. None of these does anything.

ghost use Rattle.wire_value.specs.Laws.{OneValue, NoPrefix, OneSequence, NoSequencePrefix, ReadsBack};

/// One text spells at most one value of a type, and no spelling of a type begins another.
pub fn one_value()
    ensures one { OneValue }
    ensures whole { NoPrefix }
{}

/// One text spells at most one sequence of values of a signature, and none begins another.
pub fn one_sequence()
    ensures one { OneSequence }
    ensures whole { NoSequencePrefix }
{}

/// What `write_values` adds is what `read_values` reads, whatever follows it.
pub fn reads_back()
    ensures { ReadsBack }
{}
