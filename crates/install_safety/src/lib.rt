//! Why an install is safe wherever it stops: what that means, and theorems on its list of steps,
//! without code.
#![tactic(auto)]

mod law;

pub use law::lists_are_safe;
