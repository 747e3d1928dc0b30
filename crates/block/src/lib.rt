// A block of 512 bytes: what it states, and its check, refusals 2 to 5.
#![tactic(auto)]

ghost use Rattle.std.specs.Prelude.{true, ◌≡◌, ◌*◌, ◌≤◌, ◌<◌, length};
ghost use Rattle.layout.specs.Bytes.{at, word, word_size};
ghost use Rattle.layout.specs.Block.{check_sound, version_sound, head_sound, sizes_sound, rest_sound, block_refusal};
ghost use Rattle.refusal.specs.Numbers.{broken_by};

use refusal::Rule;

// The bytes of a block.
pub type Block = [u8; 512];

// The letters that each block of a flow begins with.
pub const LETTERS: [u8; 4] = *b"SFLW";

// What a block states of its flow: the version, and the numbers of tasks, workers and cells.
#[derive(Clone, Copy, Debug, PartialEq, Eq)]
pub struct Stated {
    pub version: u32,
    pub tasks: u32,
    pub workers: u32,
    pub cells: u32,
}

impl Stated {
    // What the block at the front of these bytes states.
    pub fn of(bytes: &[u8]) -> Stated
        requires { 512 ≤ length bytes.now }
        ensures version_read { result.version ≡ at bytes.now 4 }
        ensures sizes_read { (result.tasks ≡ word bytes.now 10) × (result.workers ≡ at bytes.now 12) × (result.cells ≡ at bytes.now 13) }
        ensures tasks_fit { result.tasks < word_size }
    {
        Stated {
            version: u32::from(bytes[4]),
            tasks: u32::from(u16::from_le_bytes([bytes[10], bytes[11]])),
            workers: u32::from(bytes[12]),
            cells: u32::from(bytes[13]),
        }
    }
}

// 2: check A and check B.
fn check_sound(block: &Block) -> bool
    ensures { result ≡ check_sound block.now }
{
    let sums = fletcher::sums_of(&block[0..510]);
    u32::from(block[510]) == sums.a && u32::from(block[511]) == sums.b
}

// 3: letters, block number, number of blocks, and bytes 14-15.
#[tactic(auto, using(crate::proofs::Letters::letters_read))]
fn head_sound(block: &Block, index: u32, blocks: u32) -> bool
    ensures { result ≡ head_sound blocks index block.now }
{
    let number = u32::from(u16::from_le_bytes([block[6], block[7]]));
    let count = u32::from(u16::from_le_bytes([block[8], block[9]]));
    block.starts_with(&LETTERS)
        && number == index
        && count == blocks
        && block[14] == 0
        && block[15] == 0
}

// 3: the version is known, and block 0's.
fn version_sound(block: &Block, version: u32) -> bool
    ensures tested { result ≡ version_sound version block.now }
    ensures same { result ≡ true → at block.now 4 ≡ version }
{
    let here = Stated::of(block).version;
    flow::known(here) && here == version
}

// 4: the sizes are within range and block 0's, the blocks are the fewest for the tasks, and the rows in this block are right.
fn sizes_sound(block: &Block, index: u32, blocks: u32, first: Stated) -> bool
    requires version_same { at block.now 4 ≡ first.version }
    requires index_fits { index < word_size }
    ensures tested { result ≡ sizes_sound blocks first.tasks first.workers first.cells index block.now }
    ensures few_rows { result ≡ true → at block.now 5 ≤ 10 }
{
    let here = Stated::of(block);
    flow::within(here.tasks, here.workers, here.cells)
        && here == first
        && blocks == flow::blocks_for(here.tasks)
        && u32::from(block[5]) == flow::rows_in(here.tasks, index)
}

// 5: unused rows and bytes 496-509 are zero.
fn rest_sound(block: &Block) -> bool
    requires { at block.now 5 ≤ 10 }
    ensures { result ≡ rest_sound block.now }
{
    let from = 16 + 48 * usize::from(block[5]);
    octets::all_zero(&block[from..510])
}

// The first of 2 to 5 that the block breaks. The file has so many blocks, and block 0 states `first`.
#[tactic(auto, unfolding(layout::specs::Block::block_refusal, layout::specs::Refusal::first_broken))]
pub fn check(block: &Block, index: u32, blocks: u32, first: Stated) -> Result<(), Rule>
    requires { index < word_size }
    ensures { broken_by result ≡ block_refusal blocks first.version first.tasks first.workers first.cells index block.now }
{
    if !check_sound(block) {
        return Err(Rule::Check);
    }
    if !head_sound(block, index, blocks) || !version_sound(block, first.version) {
        return Err(Rule::Head);
    }
    if !sizes_sound(block, index, blocks, first) {
        return Err(Rule::Sizes);
    }
    if !rest_sound(block) {
        return Err(Rule::Rest);
    }
    Ok(())
}
