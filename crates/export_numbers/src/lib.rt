// The structs of numbers in which C and Rust hand over identities and messages, and get answers.
#![tactic(auto)]

mod numbers;

pub use numbers::{
    CetskobiAdmission, CetskobiAnswer, CetskobiAsked, CetskobiMessage, CetskobiReading,
    CetskobiReplica, CetskobiSettings,
};
