// One step of the stepped run, over arrays that the run lends.
#![tactic(auto)]

pub mod stepping;

// Why a step was held: the worker is past the last task, or the last write or the reads of a cell differ.
#[derive(Clone, Copy, Debug, PartialEq, Eq)]
pub enum Held {
    PastLast,
    WriteDiffers(u32),
    ReadsDiffer(u32),
}
