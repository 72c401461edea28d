// Turns one block, which is all of standard input, into its lines, or says how it is refused.
#![tactic(auto)]

use std::io;
use std::io::Print;

fn put_lines(rt: &HostRuntime, block: &[u8]) -> io::Result<()> {
    let mut text = [0u8; printed::TEXT_BYTES];
    let end = printed::print_lines(block, &mut text).0;
    rt.write_all(&text[..end])
}

fn main(rt: HostRuntime) -> io::Result<()> {
    let mut input = [0u8; 16001];
    let n = read_input::read_full(&mut rt.reader(), &mut input)?;
    put_lines(&rt, &input[..n])
}
