/// Numbers that look like chance (xorshift, by G. Marsaglia), the same in each run.
#[derive(Drop)]
pub struct Numbers {
    state: u64,
}

pub const FIRST: u64 = 88_172_645_463_325_252;

impl Numbers {
    pub fn new() -> Numbers {
        Numbers { state: FIRST }
    }

    pub fn next(&mut self) -> u64 {
        self.state ^= self.state << 13;
        self.state ^= self.state >> 7;
        self.state ^= self.state << 17;
        self.state
    }

    /// A number below the end, which is not 0.
    pub fn below(&mut self, end: u64) -> u64 {
        self.next().checked_rem(end).unwrap_or(0)
    }
}
