// Runs the sample seasons, each as it is printed and then quietly.
#![tactic(auto)]

use seasontext::season_text;
use std::fs;
use std::io::Write;

fn show(rt: &HostRuntime, path: &str) -> anyhow::Result<()> {
    let input = fs::read(rt, path)?;
    let text = season_text(rt.alloc(), input.as_slice(), false)?;
    rt.stdout().write_all(text.as_slice())?;
    let quiet = season_text(rt.alloc(), input.as_slice(), true)?;
    rt.stdout().write_all(quiet.as_slice())?;
    Ok(())
}

fn main(rt: HostRuntime) -> anyhow::Result<()> {
    show(&rt, "percentage.txt")?;
    show(&rt, "block.txt")?;
    show(&rt, "refusals.txt")?;
    show(&rt, "termless.txt")?;
    show(&rt, "badterms.txt")?;
    show(&rt, "empty.txt")?;
    show(&rt, "roomless.txt")
}
