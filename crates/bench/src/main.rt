// The bench: runs the image on standard input, and prints what it did. One byte more than an image may have is read, so that a
// longer input is seen.

#![tactic(auto)]

use std::io;

fn main(rt: HostRuntime) -> io::Result<()> {
    let mut buffer = [0u8; 65537];
    let n = show::read_full(rt.stdin(), &mut buffer)?;
    show::bench(rt.stdout(), &buffer[..n])
}
