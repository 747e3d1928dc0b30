// The check of one row as a call for C, so that its stack can be measured by itself (test/bench.c). It is no call of the library.
#![tactic(auto)]

ghost use Rattle.std.specs.Prelude.{◌≡◌, cond, leb};
ghost use Rattle.layout.specs.Flow.{most_cells};
ghost use Rattle.layout.specs.Row.{retired_in_reader, row_refusal};

use flow::Flow;
use refusal::Rule;

// The first of 6 to 11 that a row of a file of this version breaks, or 18 after 10, or 17 after 11, 0 where it breaks none; 4 where there are
// more cells than a flow can have.
#[unsafe(no_mangle)]
pub extern "C" fn row_alone(row: &[u8; 48], version: u32, workers: u32, cells: u32) -> u32
    ensures { result ≡ cond (leb cells most_cells) (row_refusal (retired_in_reader version) workers cells row.now) 4 }
{
    if cells > Flow::MAX_CELLS {
        return Rule::Sizes.number();
    }
    match row::check(row, version == Flow::VERSION_2, workers, cells) {
        Ok(()) => 0,
        Err(rule) => rule.number(),
    }
}
