// Lists the records of one block, which is all of standard input, or says how it is refused.
#![tactic(auto)]

use std::io;
use std::io::Print;

fn put_listing(rt: &HostRuntime, block: &[u8]) -> io::Result<()> {
    let mut listing = [0u8; listed::LISTING_BYTES];
    let end = listed::print_listing(block, &mut listing).0;
    rt.write_all(&listing[..end])
}

fn main(rt: HostRuntime) -> io::Result<()> {
    let mut input = [0u8; 16001];
    let n = read_input::read_full(&mut rt.reader(), &mut input)?;
    put_listing(&rt, &input[..n])
}
