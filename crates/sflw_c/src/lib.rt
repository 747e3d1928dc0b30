// The library for C: each call of crates/sflw under the name that C links, with the same contract. Its header is include/sflw.h.
#![tactic(auto)]

ghost use Rattle.sflw.specs.Words.{Checked, Read, Written, Plain, Ran};

// Checks a flow file: its sizes, its total and its version.
#[unsafe(no_mangle)]
pub extern "C" fn sflw_check(file: &[u8], answer: &mut [u32; 7]) -> u32
    ensures { Checked file.now result answer.new }
{
    sflw::sflw_check(file, answer)
}

// Reads the rows out of a flow file, and its sizes and its version.
#[unsafe(no_mangle)]
pub extern "C" fn sflw_read(file: &[u8], rows: &mut [u8], answer: &mut [u32; 7]) -> u32
    ensures { Read file.now rows.old result rows.new answer.new }
{
    sflw::sflw_read(file, rows, answer)
}

// Writes a flow file of a version from rows.
#[unsafe(no_mangle)]
pub extern "C" fn sflw_write(
    rows: &[u8],
    version: u32,
    workers: u32,
    cells: u32,
    out: &mut [u8],
    answer: &mut [u32; 3],
) -> u32
    ensures { Written rows.now version workers cells out.old result out.new answer.new }
{
    sflw::sflw_write(rows, version, workers, cells, out, answer)
}

// Runs a flow plainly.
#[unsafe(no_mangle)]
pub extern "C" fn sflw_plain(file: &[u8], cells: &mut [u32], answer: &mut [u32; 2]) -> u32
    ensures { Plain file.now cells.old result cells.new answer.new }
{
    sflw::sflw_plain(file, cells, answer)
}

// Runs a flow under a schedule.
#[unsafe(no_mangle)]
pub extern "C" fn sflw_run(
    file: &[u8],
    cells: &mut [u32],
    schedule: &[u8],
    answer: &mut [u32; 25],
) -> u32
    ensures { Ran file.now cells.old schedule.now result cells.new answer.new }
{
    sflw::sflw_run(file, cells, schedule, answer)
}
