// The console: a script from standard input, a line for each of its records on standard output.
#![tactic(auto)]

use scripts::printed;
use std::io;
use std::io::Read;

fn main(rt: HostRuntime) -> io::Result<()> {
    let heap = rt.alloc();
    let mut input = Vec::new(heap);
    // A script may have 16,384 bytes; one more shows that it is too long.
    rt.stdin().take(16385).read_to_end(&mut input)?;
    let text = printed(heap, input.as_slice())?;
    print!(rt; "{text}")
}
