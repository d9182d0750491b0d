// Compares the worked examples of the manuals with what the server answers, in both codes.
#![tactic(auto)]

mod compare;
mod frames;
mod points;
mod remarks;
mod rows;
mod verdict;

use compare::Servers;
use remarks::Remarks;
use rows::read_row;
use std::fs;
use std::rt::Files;
use verdict::Counts;

// Compares each row of a table, and tells what came of it and of all.
fn compare_table(rt: &(impl Files + AllocGlobal + Print), name: &str) -> anyhow::Result<()> {
    let heap = rt.alloc();
    let text = fs::read_to_string(rt, name)?;
    let mut servers = Servers::new();
    let mut counts = Counts::default();
    for line in text.as_str().lines().skip(1) {
        let row = read_row(line)?;
        let verdict = servers.judge(heap, &row)?;
        let remarks = Remarks { row };
        counts.add(&verdict, remarks.is_empty());
        println!(rt; "{row}: {verdict}{remarks}")?;
    }
    rt.println(counts)?;
    Ok(())
}

fn run(rt: &(impl Files + AllocGlobal + Print)) -> anyhow::Result<()> {
    compare_table(rt, "manual-examples.tsv")?;
    println!(rt; "rows that are wrong on purpose, to show that the comparison tells:")?;
    compare_table(rt, "wrong-examples.tsv")
}

fn main(rt: HostRuntime) -> anyhow::Result<()> {
    run(&rt)
}
