// The plain run and the stepped run of a flow file, from lent cells. Each takes every input, and answers with what came of it or with 01's
// number and place.
#![tactic(auto)]

mod plainly;
mod scheduled;
mod telling;

use notes::Notes;
pub use plainly::plain;
pub use scheduled::run;

// What came of a stepped run: the steps that advanced and were held, the done tasks, whether it has finished, and what is kept of the held
// steps.
#[derive(Clone, Copy)]
pub struct Ran {
    pub advanced: u32,
    pub held: u32,
    pub done: u32,
    pub finished: bool,
    pub notes: Notes,
}
