// Splits the half hours of a table that it reads from standard input.
#![tactic(auto)]

ghost use Rattle.std.specs.Prelude.{IfSome, OnOk};
ghost use Rattle.std.specs.Io.KnownBytes.{Appends};
ghost use Rattle.rules.specs.House.{house};
ghost use Rattle.worksheet.specs.Tables.{table_text};

use recount::Recount;
use rules::House;
use std::alloc::Global;
use std::io;
use std::io::{Read, Write};
use worksheet::answer_table;

// Reads a table to its end, and writes the answers to it.
fn run<R: Read, W: Write>(heap: Global, input: &mut R, output: &mut W) -> io::Result<()>
    ensures { OnOk result (IfSome (R.remaining input.old) (λ table. Appends (W.contents output.old) (W.contents output.new) (table_text house house table))) }
{
    let mut table = Vec::new(heap);
    input.read_to_end(&mut table)?;
    let text = answer_table(heap, &House, &Recount, table.as_slice())?;
    output.write_all(text.as_bytes())
}

fn main(rt: HostRuntime) -> io::Result<()> {
    run(rt.alloc(), &mut rt.stdin(), &mut rt.stdout())
}
