// The bounds of play: which input and output are taken, which laptops a line may name, and where a line ends.
#![tactic(auto)]

mod bounds;

pub use bounds::{Bounds, in_group, line_at, playable};
