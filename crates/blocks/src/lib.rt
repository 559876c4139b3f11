// Blocks of 512 bytes, each with a number, used bytes, content and sum (docs/FORMAT.md), judged one by one or as a run.
#![tactic(auto)]

pub mod bytes;

ghost use Rattle.std.specs.Prelude.{◌≡◌, ◌+◌, ◌*◌, ◌≤◌, min, length, take, drop};
ghost use Rattle.blocks.specs.Block.{block_bytes, content_bytes, weight_of, weighed, sum_of, zeros, examine};
ghost use Rattle.blocks.specs.Block.{judge, judged};
ghost use Rattle.blocks.specs.Run.{blocks_for, judge_run, content_in};

use table::numbers;

// The size of a block, and that of its content.
pub const BLOCK_BYTES: usize = 512;

pub const CONTENT_BYTES: usize = 504;

// Judges the block at the front of some bytes, given its expected number and number of used bytes. Refuses with 70
// (short), 72 (the sum), 71 (the number) or 73 (the used bytes or the zeros after them), in this order.
pub fn judge(bytes: &[u8], number: usize, used: usize) -> Result<(), u32>
    ensures { judged result ≡ judge number used bytes.now }
{
    if bytes.len() < BLOCK_BYTES {
        return Err(numbers::BLOCK_SHORT);
    }
    let b = first_block(bytes);
    examine(&b, number, used)
}

// Judges the blocks that hold `total` bytes, 504 in each, numbered from `first` on.
pub fn judge_run(bytes: &[u8], first: u16, total: usize) -> Result<(), u32>
    ensures { judged result ≡ judge_run first total bytes.now }
{
    let start = first as usize;
    let mut left = bytes;
    let mut more = total;
    for number in start..start + blocks_for(total) {
        let used = used_here(more);
        judge(left, number, used)?;
        left = &left[BLOCK_BYTES..];
        more -= used;
    }
    Ok(())
}

// The number of blocks that `total` bytes need.
pub fn blocks_for(total: usize) -> usize
    ensures { result ≡ blocks_for total }
{
    if total % CONTENT_BYTES == 0 {
        return total / CONTENT_BYTES;
    }
    total / CONTENT_BYTES + 1
}

// The content bytes of the next block when `more` are left: 504, or `more` if less.
pub fn used_here(more: usize) -> usize
    ensures { result ≡ min content_bytes more }
{
    if more < CONTENT_BYTES {
        return more;
    }
    CONTENT_BYTES
}

// The content of the block with this number in a file: its 504 bytes, or fewer if the file ends before.
pub fn content(bytes: &[u8], number: usize) -> &[u8]
    ensures { result.now ≡ content_in number bytes.now }
{
    if bytes.len() / BLOCK_BYTES < number {
        return &bytes[0..0];
    }
    let block = &bytes[BLOCK_BYTES * number..];
    if block.len() < 4 {
        return &block[0..0];
    }
    if block.len() < 508 {
        return &block[4..];
    }
    &block[4..508]
}

// A copy of the first 512 bytes.
fn first_block(bytes: &[u8]) -> [u8; BLOCK_BYTES]
    requires { block_bytes ≤ length bytes.now }
    ensures { result ≡ take block_bytes bytes.now }
{
    let mut b = [0u8; BLOCK_BYTES];
    b.copy_from_slice(&bytes[..BLOCK_BYTES]);
    b
}

// Tests the 512 bytes of a block: 72, 71, 73.
fn examine(b: &[u8], number: usize, used: usize) -> Result<(), u32>
    requires { length b.now ≡ block_bytes }
    ensures { judged result ≡ examine number used b.now }
{
    let right = sum(b) == fields::word(b, 508);
    let numbered = fields::half(b, 0) as usize == number;
    if !right {
        return Err(numbers::BLOCK_CHECK);
    }
    if !numbered {
        return Err(numbers::BLOCK_NUMBER);
    }
    let said = fields::half(b, 2) as usize;
    if said != used {
        return Err(numbers::BLOCK_USED);
    }
    if !padded(b, 4 + said) {
        return Err(numbers::BLOCK_USED);
    }
    Ok(())
}

// What byte x at place p adds to the sum of a block.
pub fn weight(p: u16, x: u8) -> u32
    ensures { result ≡ weight_of p x }
{
    (p as u32 + 1) * (x as u32)
}

// The sum of (p + 1) times byte p over p = 0 to 507. It is below 33 million, so it fits 32 bits. Bytes past the end
// count as zero. A whole block is summed in eight parts with constant bounds, which compile to vector code.
pub fn sum(b: &[u8]) -> u32
    ensures { result ≡ sum_of b.now }
{
    if b.len() < 508 {
        return part_sum(b, 0, b.len());
    }
    let low = part_sum(b, 0, 64)
        + part_sum(b, 64, 128)
        + part_sum(b, 128, 192)
        + part_sum(b, 192, 256);
    let high = part_sum(b, 256, 320)
        + part_sum(b, 320, 384)
        + part_sum(b, 384, 448)
        + part_sum(b, 448, 508);
    low + high
}

// What the bytes from place `from` up to place `to` add to the sum. No `for`: the wrong answer every_second_byte is
// about the step from a place to the next.
fn part_sum(b: &[u8], from: usize, to: usize) -> u32
    requires { (from ≤ to) × (to ≤ 508) × (to ≤ length b.now) }
    ensures result_value { weighed from b.now + result ≡ weighed to b.now }
    ensures upper_bound { result ≤ 129540 * to }
{
    let mut sum = 0u32;
    let mut at = from;
    while at < to {
        sum += weight(at as u16, b[at]);
        at += 1;
    }
    sum
}

// Whether the content is zero from byte `from` on: the sum of its bytes is zero. It compiles to vector code, and a test
// of each byte by `all` does not: judging a file of 100 nodes would take 1.8 times as long.
fn padded(b: &[u8], from: usize) -> bool
    requires { length b.now ≡ block_bytes }
    ensures { result ≡ zeros (drop from (take 508 b.now)) }
{
    let mut total = 0u32;
    for p in from..508 {
        total += b[p] as u32;
    }
    total == 0
}
