// Prints what is sent for the schedule and the readings on standard input.
#![tactic(auto)]

ghost use Rattle.std.specs.Prelude.{IfSome, OnOk};
ghost use Rattle.std.specs.Io.KnownBytes.{Appends};
ghost use Rattle.dayrun.specs.Texts.{day_text};

use dayrun::{MAX_INPUT, split_day};
use std::alloc::Global;
use std::io::{Read, Write};

// Reads a schedule and readings, and writes what is sent for them.
fn run<R: Read + Drop, W: Write>(heap: Global, input: R, output: &mut W) -> anyhow::Result<()>
    ensures { OnOk result (IfSome (R.remaining input) (λ files. Appends (W.contents output.old) (W.contents output.new) (day_text files))) }
{
    let mut files = Vec::new(heap);
    input.take(MAX_INPUT as u64).read_to_end(&mut files)?;
    let text = split_day(heap, files.as_slice())?;
    output.write_all(text.as_slice())?;
    Ok(())
}

fn main(rt: HostRuntime) -> anyhow::Result<()> {
    run(rt.alloc(), rt.stdin(), &mut rt.stdout())
}
