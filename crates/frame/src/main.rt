// Reads a plan on standard input, and prints its frame 0 under each local scheduler, or the refusal.
#![tactic(auto)]

use output::{MOST, frame_text};
use std::io;
use std::io::Read;

fn main(rt: HostRuntime) -> io::Result<()> {
    let mut bytes = Vec::new(rt.alloc());
    rt.stdin().take(MOST as u64).read_to_end(&mut bytes)?;
    let text = frame_text(rt.alloc(), bytes.as_slice())?;
    print!(rt; "{text}")
}
