// Runs the season on standard input, and prints what comes of its calls. With `--quiet` it prints only refusals, lines that are no call, and the two tables.
#![tactic(auto)]

ghost use Rattle.std.specs.Prelude.{IfSome, OnOk};
ghost use Rattle.std.specs.Io.KnownBytes.{Appends};
ghost use Rattle.seasontext.specs.Seasons.{season_text};

use anyhow::anyhow;
use seasontext::season_text;
use std::alloc::Global;
use std::env;
use std::io::{Read, Write};

// Whether the arguments ask for a quiet season; any other argument is an error.
fn is_quiet(rt: &HostRuntime) -> anyhow::Result<bool> {
    let mut quiet = false;
    for argument in env::args(rt)?.skip(1) {
        if argument.as_str() != "--quiet" {
            return Err(anyhow!("usage: seasonbook [--quiet] < SEASON"));
        }
        quiet = true;
    }
    Ok(quiet)
}

// Reads a season to its end, and writes what is printed of it.
fn run<R: Read, W: Write>(
    heap: Global,
    quiet: bool,
    input: &mut R,
    output: &mut W,
) -> anyhow::Result<()>
    ensures { OnOk result (IfSome (R.remaining input.old) (λ season. Appends (W.contents output.old) (W.contents output.new) (season_text quiet season))) }
{
    let mut season = Vec::new(heap);
    input.read_to_end(&mut season)?;
    let text = season_text(heap, season.as_slice(), quiet)?;
    output.write_all(text.as_slice())?;
    Ok(())
}

fn main(rt: HostRuntime) -> anyhow::Result<()> {
    let quiet = is_quiet(&rt)?;
    run(rt.alloc(), quiet, &mut rt.stdin(), &mut rt.stdout())
}
