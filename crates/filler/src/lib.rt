// The filling of a block in its own part of the lent output: the head, the block's rows and zeros after them, and the check.
#![tactic(auto)]

ghost use Rattle.std.specs.Prelude.{◌≡◌, ◌*◌, ◌≤◌, ◌<◌, length, take};
ghost use Rattle.layout.specs.Bytes.{padded};
ghost use Rattle.layout.specs.Flow.{most_blocks};
ghost use Rattle.layout.specs.Block.{blocks_for, head_of, sealed, block_of};

use block::LETTERS;
use flow::Flow;

// Bytes 0-15.
fn head(index: u32, flow: Flow) -> [u8; 16]
    requires { index < most_blocks }
    ensures { result ≡ head_of flow.version flow.tasks flow.workers flow.cells index }
{
    let mut head = [0; 16];
    head[0..4].copy_from_slice(&LETTERS);
    head[4] = flow.version as u8;
    head[5] = flow::rows_in(flow.tasks, index) as u8;
    head[6..8].copy_from_slice(&(index as u16).to_le_bytes());
    head[8..10].copy_from_slice(&(flow::blocks_for(flow.tasks) as u16).to_le_bytes());
    head[10..12].copy_from_slice(&(flow.tasks as u16).to_le_bytes());
    head[12] = flow.workers as u8;
    head[13] = flow.cells as u8;
    head
}

// Bytes 16-509: rows, and zeros after them.
#[tactic(auto, using(std::proofs::lemmas::Slice::overwrites), unfolding(layout::specs::Bytes::padded))]
fn rows(part: &mut [u8], rows: &[u8])
    requires part_len { length part.old ≡ 494 }
    requires ten_rows { length rows.now ≤ 480 }
    ensures { part.new ≡ padded 494 rows.now }
{
    let used = rows.len();
    part[0..used].copy_from_slice(rows);
    part[used..].fill(0);
}

// Bytes 510 and 511: the check over those before them.
#[tactic(auto, using(layout::proofs::Fletcher::fletcher_small, std::proofs::lemmas::Slice::overwrites))]
fn seal(part: &mut [u8])
    requires { length part.old ≡ 512 }
    ensures { part.new ≡ sealed (take 510 part.old) }
{
    let sums = fletcher::sums_of(&part[0..510]);
    part[510..].copy_from_slice(&[sums.a as u8, sums.b as u8]);
}

// Fills one block of a flow out of all of its rows.
pub fn fill(part: &mut [u8], all: &[u8], index: u32, flow: Flow)
    requires part_is_block { length part.old ≡ 512 }
    requires all_rows { (length all.now ≡ 48 * flow.tasks) × (index < blocks_for flow.tasks) }
    ensures { part.new ≡ block_of flow.version flow.tasks flow.workers flow.cells all.now index }
{
    part[0..16].copy_from_slice(&head(index, flow));
    let from = 480 * index as usize;
    let to = from + 48 * flow::rows_in(flow.tasks, index) as usize;
    rows(&mut part[16..510], &all[from..to]);
    seal(part);
}
