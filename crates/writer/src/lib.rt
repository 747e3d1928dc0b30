// The writer: rows, a version, workers and cells into a file. Each block is filled in its own part of the lent output. It takes every input, and
// answers with the bytes written or with 01's number and place.
#![tactic(auto)]

ghost use Rattle.std.specs.Prelude.{◌≡◌, cond, ◌++◌, ◌*◌, ◌/◌, ◌≤◌, length, drop};
ghost use Rattle.layout.specs.Refusal.{first_at};
ghost use Rattle.layout.specs.Row.{retired_in_writer, row_refusal};
ghost use Rattle.layout.specs.Block.{blocks_for};
ghost use Rattle.layout.specs.Write.{file_of, rows_sound, row_of_task};
ghost use Rattle.refusal.specs.Numbers.{met_by};
ghost use Rattle.writer.specs.Answers.{answer_by};
ghost use Rattle.writer.specs.Promises.{WritePromise};

use flow::Flow;
use refusal::{Refusal, Rule};

// The rows in so many bytes; none where 15 refuses them.
fn whole_rows(bytes: usize) -> Option<u32>
    ensures { result ≡ cond (rows_sound bytes) (Some (bytes / 48)) None }
{
    octets::whole_parts(bytes, 48, Flow::MAX_ROW_BYTES)
}

// The first refusal among given rows. Operation 6 is retired in either version.
fn given_met(rows: &[u8], flow: Flow) -> Result<(), Refusal>
    requires { length rows.now ≡ 48 * flow.tasks }
    ensures { met_by result ≡ first_at (λ task. row_refusal (retired_in_writer flow.version) flow.workers flow.cells (row_of_task rows.now task)) 1 flow.tasks }
{
    refusal::first_refused(1, flow.tasks, |task| {
        let row = rows::row_from(rows, 48 * (task - 1) as usize);
        row::check(row, true, flow.workers, flow.cells)
    })
}

// Fills the blocks of a flow, each in the part of the output from 512 times its number.
fn fill_blocks(rows: &[u8], out: &mut [u8], flow: Flow)
    requires rows_whole { length rows.now ≡ 48 * flow.tasks }
    requires room { 512 * blocks_for flow.tasks ≤ length out.old }
    ensures { out.new ≡ file_of flow.version flow.tasks flow.workers flow.cells rows.now ++ drop (512 * blocks_for flow.tasks) out.old }
{
    for index in 0..flow::blocks_for(flow.tasks) {
        let from = 512 * index as usize;
        filler::fill(&mut out[from..from + 512], rows, index, flow);
    }
}

// Writes rows, a version, workers and cells as a file: the bytes written, or a refusal that changes no byte.
#[tactic(auto, unfolding(layout::specs::Write::write_answer, layout::specs::Write::rows_answer))]
pub fn write(
    rows: &[u8],
    version: u32,
    workers: u32,
    cells: u32,
    out: &mut [u8],
) -> Result<u32, Refusal>
    ensures { WritePromise rows.now version workers cells out.old (answer_by result) out.new }
{
    let tasks = whole_rows(rows.len()).ok_or(Rule::Rows)?;
    let flow = Flow::new(version, tasks, workers, cells)?;
    given_met(rows, flow)?;
    let bytes = 512 * flow::blocks_for(flow.tasks);
    if out.len() < bytes as usize {
        return Err(Rule::Room.at(0));
    }
    fill_blocks(rows, out, flow);
    Ok(bytes)
}
