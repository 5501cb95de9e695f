// The playing program as a library: what a script prints.
#![tactic(auto)]

mod cluster;
mod game;

pub use game::play;
