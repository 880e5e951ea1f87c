// Prints the file on standard input for a person.
#![tactic(auto)]

ghost use Rattle.std.specs.Prelude.{IfSome, OnOk};
ghost use Rattle.std.specs.Io.KnownBytes.{Appends};
ghost use Rattle.listing.specs.Texts.{listing_of};

use files::MAX_FILE;
use listing::listing;
use std::alloc::Global;
use std::io::{Read, Write};

// Reads a file, and one byte more where it is too long, and writes what is printed of it.
fn run<R: Read + Drop, W: Write>(heap: Global, input: R, output: &mut W) -> anyhow::Result<()>
    ensures { OnOk result (IfSome (R.remaining input) (λ file. Appends (W.contents output.old) (W.contents output.new) (listing_of file))) }
{
    let mut file = Vec::new(heap);
    input.take(MAX_FILE as u64 + 1).read_to_end(&mut file)?;
    let text = listing(heap, file.as_slice())?;
    output.write_all(text.as_bytes())?;
    Ok(())
}

fn main(rt: HostRuntime) -> anyhow::Result<()> {
    run(rt.alloc(), rt.stdin(), &mut rt.stdout())
}
