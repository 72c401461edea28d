// Turns lines, which are all of standard input, into their block, or says how they are refused: tests them first, and only then finds room for a block.
#![tactic(auto)]

use std::io;
use std::io::Print;

// Kept: a function for each way, here and below: what prints takes an array of a size of its own (a bound on it would name its size, and no proof is made for such a bound yet), and the block's array is made only where there is a block.
fn put_block(rt: &HostRuntime, text: &[u8]) -> io::Result<()> {
    let mut block = [0u8; printed::BLOCK_BYTES];
    let end = printed::print_block(text, &mut block).0;
    rt.write_all(&block[..end])
}

fn put_refusal(rt: &HostRuntime, text: &[u8]) -> io::Result<()> {
    let mut line = [0u8; printed::SIZE_BYTES];
    let end = printed::print_size(text, &mut line).0;
    rt.write_all(&line[..end])
}

fn main(rt: HostRuntime) -> io::Result<()> {
    let mut input = [0u8; 65537];
    let n = read_input::read_full(&mut rt.reader(), &mut input)?;
    match read_text::judge_lines(&input[..n]) {
        Ok(_) => put_block(&rt, &input[..n]),
        Err(_) => put_refusal(&rt, &input[..n]),
    }
}
