// The check of a flow file. It takes every input, and answers with the flow's version and sizes or with 01's number and place.
#![tactic(auto)]

mod checking;

pub use checking::{accept, check};
