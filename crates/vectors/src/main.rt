// Runs plan files through the library and compares what it makes of them with what an independent program made from the rules.
#![tactic(auto)]

ghost use Rattle.std.specs.Prelude.{◌≡◌, true, take, IfOk};
ghost use Rattle.output.specs.Printed.{Printed};

use output::frame_text;
use std::alloc::{AllocError, Global};
use std::{fs, io};

// The vectors are 001 to this number.
const COUNT: u32 = 133;

// Whether a plan prints as expected; then the expected text is what the rules print for it.
fn agrees(heap: Global, plan: &[u8], expected: &[u8]) -> Result<bool, AllocError>
    ensures { IfOk result (λ same. (same ≡ true → Printed (take 16908 plan.now) expected.now)) }
{
    let text = frame_text(heap, plan)?;
    Ok(text.as_bytes() == expected)
}

fn vector_agrees(rt: &HostRuntime, name: &str) -> io::Result<bool> {
    let heap = rt.alloc();
    let plan = fs::read(rt, format!(in heap; "{name}.plan")?)?;
    let expected = fs::read(rt, format!(in heap; "{name}.out")?)?;
    Ok(agrees(heap, plan.as_slice(), expected.as_slice())?)
}

fn main(rt: HostRuntime) -> io::Result<()> {
    // Kept: a chain that counts would have to carry the errors of reading and the lines that it prints.
    let mut agreed = 0u32;
    for number in 1..=COUNT {
        let name = format!(in rt.alloc(); "{number:03}")?;
        if vector_agrees(&rt, name.as_str())? {
            agreed = agreed.saturating_add(1);
        } else {
            println!(rt; "{name} does not agree")?;
        }
    }
    println!(rt; "{agreed} of {COUNT} agree")
}
