// Says how many bytes the block of these lines has, which are all of standard input, or how they are refused. No block is made.
#![tactic(auto)]

use std::io;
use std::io::Print;

fn main(rt: HostRuntime) -> io::Result<()> {
    let mut input = [0u8; 65537];
    let n = read_input::read_full(&mut rt.reader(), &mut input)?;
    let mut line = [0u8; printed::SIZE_BYTES];
    let end = printed::print_size(&input[..n], &mut line).0;
    rt.write_all(&line[..end])
}
