// Compares what the library makes with tables of figures that were worked out independently of it.
#![tactic(auto)]

mod feeders;
mod row;
mod sections;
mod verdicts;

use std::fs;

// How many rows of a table agree, each compared by `agrees`, which answers None for one that cannot be read. A row that does not agree is printed.
fn compare<F: Fn(&str) -> Option<bool>>(
    rt: &HostRuntime,
    name: &str,
    path: &str,
    agrees: F,
) -> anyhow::Result<()>
    requires { F.IsAlwaysCallable agrees }
{
    let text = fs::read_to_string(rt, path)?;
    // counted by hand, since each row is compared once, and one that differs is printed at once
    let mut rows = 0u32;
    let mut agreed = 0u32;
    for line in text.as_str().lines().skip(1) {
        rows = rows.saturating_add(1);
        if agrees(line) == Some(true) {
            agreed = agreed.saturating_add(1);
        } else {
            println!(rt; "{name} differs: {line}")?;
        }
    }
    println!(rt; "{name}: {agreed} of {rows} rows agree")?;
    Ok(())
}

fn main(rt: HostRuntime) -> anyhow::Result<()> {
    compare(&rt, "sections", "sections.tsv", sections::agrees)?;
    compare(&rt, "verdicts", "verdicts.tsv", verdicts::agrees)?;
    let heap = rt.alloc();
    compare(
        &rt,
        "feeders",
        "feeders.tsv",
        |line| feeders::agrees(heap, line),
    )
}
