// Packs the blocks of a file, which is all of standard input, again, or says how it is refused.
#![tactic(auto)]

use std::io;
use std::io::Print;

fn put_blocks(rt: &HostRuntime, slice: &[u8]) -> io::Result<()> {
    let mut packed = [0u8; printed::SLICE_BYTES];
    let end = printed::print_blocks(slice, &mut packed).0;
    rt.write_all(&packed[..end])
}

fn main(rt: HostRuntime) -> io::Result<()> {
    let mut input = [0u8; 64001];
    let n = read_input::read_full(&mut rt.reader(), &mut input)?;
    put_blocks(&rt, &input[..n])
}
