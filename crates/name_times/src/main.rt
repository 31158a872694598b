//! Repeats questions on general resource names, so that a script can measure what one costs. Each row of standard input
//! is `P pattern`, which adds a pattern to the index, `F times name`, which finds the most specific pattern that covers
//! the name so many times, or `C times pattern name`, which asks so many times whether the pattern covers the name. For
//! the last two it prints how many times the answer was yes.
#![tactic(auto)]

mod names;

use anyhow::{Result, anyhow};
use names::{Names, times_covered};

/// The first word of a row, and the rest.
fn parted(row: &str) -> Result<(&str, &str)> {
    row.split_once(' ').ok_or_else(|| anyhow!("a word lacks"))
}

/// Works a row that looks for a name.
fn find(rt: &impl Print, names: &Names, row: &str) -> Result<()> {
    let (times, name) = parted(row)?;
    let times = times.parse::<u32>()?;
    println!(rt; "{}", names.times_found(name.as_bytes(), times))?;
    Ok(())
}

/// Works a row that asks whether a pattern covers a name.
fn cover(rt: &impl Print, row: &str) -> Result<()> {
    let (times, rest) = parted(row)?;
    let times = times.parse::<u32>()?;
    let (text, name) = parted(rest)?;
    println!(rt;
        "{}",
        times_covered(text.as_bytes(), name.as_bytes(), times)
    )?;
    Ok(())
}

/// Works a row.
fn run_row(rt: &impl Print, names: &mut Names, row: &str) -> Result<()> {
    let (verb, rest) = parted(row)?;
    match verb {
        "P" => Ok(names.add(rest.as_bytes())?),
        "F" => find(rt, names, rest),
        "C" => cover(rt, rest),
        _ => Err(anyhow!("no such row")),
    }
}

/// Works the rows of standard input.
fn main(rt: HostRuntime) -> Result<()> {
    let mut names = Names::new(rt.alloc())?;
    for line in rt.lines(rt.alloc()) {
        let line = line?;
        run_row(&rt, &mut names, line.as_str())?;
    }
    Ok(())
}
