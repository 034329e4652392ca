ghost use Rattle.machine.specs.Past.{HeldJoins};

/// The law that joins held worlds: for a moment between a start and now, what a stop since the start
/// may have left is what a stop since that moment may have left, or what one since the start might
/// have left as of that moment.
pub fn held_joins()
    ensures { HeldJoins }
{}
