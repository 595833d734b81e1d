// House blocks, as document 01's section of that name has them: their sums, sealing one, and whether one is damaged.
#![tactic(auto)]

ghost use Rattle.std.specs.Prelude.{◌≡◌, ◌+◌, ◌<◌, ◌≤◌, length, take, replicate, not};
ghost use Rattle.std.proofs.lemmas.List.Edits.{sets};
ghost use Rattle.blocks.specs.Block.{sums, pair, pair_at, zeros, intact, sealed, block, filled, block_of};

// A block's bytes, those of its content, and those that its check is over.
pub const BLOCK: usize = 512;

pub const CONTENT: usize = 506;

const CHECKED: usize = 508;

// What both sums are taken modulo.
const LIMIT: usize = 65535;

#[derive(Clone, Copy)]
struct Sums {
    pub first: usize,
    pub second: usize,
}

// Both sums over some bytes.
fn sums_over(bytes: &[u8]) -> Sums
    ensures { sums 0 0 bytes.now ≡ (result.first, result.second) }
{
    let mut first: usize = 0;
    let mut second: usize = 0;
    for byte in bytes {
        first = (first + usize::from(*byte)) % LIMIT;
        second = (second + first) % LIMIT;
    }
    Sums { first, second }
}

// The number in 16 bits that stands from `at` on.
pub fn read_pair(bytes: &[u8], at: usize) -> usize
    requires { at + 1 < length bytes.now }
    ensures { (result ≡ pair_at bytes.now at) × (result < 65536) }
{
    usize::from(u16::from_le_bytes([bytes[at], bytes[at + 1]]))
}

// Writes a number in 16 bits from `at` on.
pub fn put_pair(bytes: &mut [u8], at: usize, value: usize)
    requires { at + 1 < length bytes.old }
    ensures { bytes.new ≡ sets bytes.old at (pair value) }
{
    bytes[at..at + 2].copy_from_slice(&((value % 65536) as u16).to_le_bytes());
}

fn all_zero(bytes: &[u8]) -> bool
    ensures { result ≡ zeros bytes.now }
{
    bytes.iter().all(|byte| *byte == 0)
}

// Whether some bytes are the block of that number, of whose content the first `used` bytes are used.
#[tactic(auto, using(crate::proofs::Laws::zeros_none), unfolding(crate::specs::Block::intact))]
pub fn is_intact(block: &[u8], number: usize, used: usize) -> bool
    ensures { result ≡ intact used number block.now }
{
    if block.len() != BLOCK {
        return false;
    }
    let sums = sums_over(&block[..CHECKED]);
    read_pair(block, 508) == sums.first
        && read_pair(block, 510) == sums.second
        && read_pair(block, 506) == number
        && (CONTENT <= used || all_zero(&block[used..CONTENT]))
}

// Whether block k of a file is damaged; one that the file has not is.
pub fn is_damaged(file: &[u8], k: usize, used: usize) -> bool
    ensures { result ≡ not (intact used k (block_of k file.now)) }
{
    if file.len() / BLOCK <= k {
        return true;
    }
    let start = BLOCK * k;
    let stop = start + BLOCK;
    !is_intact(&file[start..stop], k, used)
}

// Writes number and check behind the content of a block.
fn seal(block: &mut [u8], number: usize)
    ensures { block.new ≡ sealed number block.old }
{
    if block.len() != BLOCK {
        return;
    }
    put_pair(block, 506, number);
    let sums = sums_over(&block[..CHECKED]);
    put_pair(block, 508, sums.first);
    put_pair(block, 510, sums.second);
}

// Makes a block of 512 bytes whose first `used` bytes are its used content: zeros behind them, number and check.
pub fn finish(bytes: &mut [u8], used: usize, number: usize)
    requires { (length bytes.old ≡ 512) × (used ≤ 506) }
    ensures { bytes.new ≡ block (filled (take used bytes.old)) number }
{
    bytes[used..CONTENT].fill(0);
    seal(bytes, number);
}
