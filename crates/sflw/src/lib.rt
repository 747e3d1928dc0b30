// The calls for programs in C, as functions of a library; crates/sflw_c exports them. Each fills the words of its answer, in the order of
// include/sflw.h, and returns the number.
#![tactic(auto)]

ghost use Rattle.std.specs.Prelude.{◌≡◌, ◌≤◌, ◌-◌, ◌∷◌, replicate, Ok};
ghost use Rattle.refusal.specs.Numbers.{number_of};
ghost use Rattle.run.specs.Answers.{answer_by};
ghost use Rattle.sflw.specs.Words.{run_words, Checked, Read, Written, Plain, Ran};

use notes::reason_and_cell;
use refusal::Refusal;

// Fills in a refusal's number and its place, and zeros after them, and returns the number.
fn refuse<const N: usize>(met: Refusal, answer: &mut [u32; N]) -> u32
    requires { 2 ≤ N }
    ensures number { result ≡ number_of met.rule }
    ensures words { answer.new ≡ number_of met.rule ∷ met.place ∷ replicate (N - 2) 0 }
{
    answer.fill(0);
    answer[0] = met.rule.number();
    answer[1] = met.place;
    met.rule.number()
}

// Checks a flow file: its sizes, its total and its version.
// Kept: each call lists the words of its own answer, in the order of the C interface.
pub fn sflw_check(file: &[u8], answer: &mut [u32; 7]) -> u32
    ensures { Checked file.now result answer.new }
{
    match measure::measure(file) {
        Ok(met) => {
            let flow = met.flow;
            *answer = [
                0,
                0,
                flow.tasks,
                flow.workers,
                flow.cells,
                met.total,
                flow.version,
            ];
            0
        }
        Err(met) => refuse(met, answer),
    }
}

// Reads the rows out of a flow file, and its sizes and its version.
pub fn sflw_read(file: &[u8], rows: &mut [u8], answer: &mut [u32; 7]) -> u32
    ensures { Read file.now rows.old result rows.new answer.new }
{
    match reader::read(file, rows) {
        Ok(flow) => {
            let bytes = 48 * flow.tasks;
            *answer = [
                0,
                0,
                bytes,
                flow.tasks,
                flow.workers,
                flow.cells,
                flow.version,
            ];
            0
        }
        Err(met) => refuse(met, answer),
    }
}

// Writes a flow file of a version from rows.
pub fn sflw_write(
    rows: &[u8],
    version: u32,
    workers: u32,
    cells: u32,
    out: &mut [u8],
    answer: &mut [u32; 3],
) -> u32
    ensures { Written rows.now version workers cells out.old result out.new answer.new }
{
    match writer::write(rows, version, workers, cells, out) {
        Ok(bytes) => {
            *answer = [0, 0, bytes];
            0
        }
        Err(met) => refuse(met, answer),
    }
}

// Runs a flow plainly.
pub fn sflw_plain(file: &[u8], cells: &mut [u32], answer: &mut [u32; 2]) -> u32
    ensures { Plain file.now cells.old result cells.new answer.new }
{
    match run::plain(file, cells) {
        Ok(()) => {
            *answer = [0, 0];
            0
        }
        Err(refusal) => refuse(refusal, answer),
    }
}

// The words of a stepped run.
#[tactic(auto, using(crate::proofs::Workers::told_more))]
fn tell_run(ran: run::Ran, answer: &mut [u32; 25])
    ensures { answer.new ≡ run_words (answer_by (Ok ran)) }
{
    let notes = ran.notes;
    let finished = u32::from(ran.finished);
    *answer = [0; 25];
    answer[2] = ran.advanced;
    answer[3] = ran.held;
    answer[4] = ran.done;
    answer[5] = finished;
    answer[6] = notes.past_last;
    answer[7] = notes.write_differs;
    answer[8] = notes.reads_differ;
    for w in 0..8 {
        let words = reason_and_cell(notes.latest[w]);
        answer[9 + 2 * w] = words[0];
        answer[10 + 2 * w] = words[1];
    }
}

// Runs a flow under a schedule.
pub fn sflw_run(file: &[u8], cells: &mut [u32], schedule: &[u8], answer: &mut [u32; 25]) -> u32
    ensures { Ran file.now cells.old schedule.now result cells.new answer.new }
{
    match run::run(file, cells, schedule) {
        Ok(ran) => {
            tell_run(ran, answer);
            0
        }
        Err(met) => refuse(met, answer),
    }
}
