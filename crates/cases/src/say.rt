// What is written of an answer: the number and the place, which are 0 where nothing is refused, and then the counts.
use console::StandardOutput;
use flow::Flow;
use refusal::Refusal;
use std::fmt;

// A number after its name.
#[derive(Clone, Copy)]
pub(crate) struct Named<'a>(pub(crate) &'a str, pub(crate) u32);

impl fmt::Display for Named<'_> {
    fn fmt<W: fmt::Write>(&self, f: &mut fmt::Formatter<W>) -> fmt::Result {
        let Named(name, number) = *self;
        write!(f, " {name} {number}")
    }
}

// The number and the place answered.
fn answered(out: &mut StandardOutput, number: u32, place: u32) {
    write!(out, " {number}{}", Named("place", place));
}

pub(crate) fn accepted(out: &mut StandardOutput) {
    answered(out, 0, 0);
}

pub(crate) fn refused(out: &mut StandardOutput, refusal: Refusal) {
    answered(out, refusal.rule.number(), refusal.place);
}

// An answer that says how many bytes were filled.
pub(crate) fn filled(out: &mut StandardOutput, bytes: u32) {
    accepted(out);
    write!(out, "{}", Named("bytes", bytes));
}

// Kept: other words in another order than the run program's line has.
pub(crate) fn sizes(out: &mut StandardOutput, flow: Flow) {
    write!(
        out,
        "{}{}{}{}",
        Named("tasks", flow.tasks),
        Named("workers", flow.workers),
        Named("cells", flow.cells),
        Named("version", flow.version)
    );
}

// Whether what is named stayed the same.
pub(crate) fn same(out: &mut StandardOutput, name: &str, is_same: bool) {
    write!(out, " {name}{}", if is_same { " same" } else { " changed" });
}
