// Runs NIST's byte-oriented vectors for SHA-256, and says of each file how many were run and how many digests differ.
#![tactic(auto)]

mod digest;
mod file;
mod messages;
mod monte;
mod outcome;
mod text;

use file::Vectors;
use std::io::Result;
use std::rt::Files;

// What the files come to; no vector counts of a file that is damaged or missing.
#[derive(Drop)]
struct Totals {
    run: u64,
    differ: u64,
    damaged: u64,
}

fn main(rt: HostRuntime) -> Result<()> {
    let mut totals = Totals {
        run: 0,
        differ: 0,
        damaged: 0,
    };
    add(&rt, "SHA256ShortMsg.rsp", Vectors::Short, &mut totals)?;
    add(&rt, "SHA256LongMsg.rsp", Vectors::Long, &mut totals)?;
    add(&rt, "SHA256Monte.rsp", Vectors::Monte, &mut totals)?;
    println!(&rt;
        "{} vectors run, {} differ, {} files damaged",
        totals.run, totals.differ, totals.damaged
    )
}

// Says what comes of a file, and adds it to the totals.
fn add(rt: &(impl Files + Print), name: &str, vectors: Vectors, totals: &mut Totals) -> Result<()> {
    match file::run(rt, name, vectors) {
        Ok(ran) => {
            totals.run = totals.run.saturating_add(u64::from(ran.run));
            totals.differ = totals.differ.saturating_add(u64::from(ran.differ));
            println!(rt; "{name}: {ran}")
        }
        Err(failure) => {
            totals.damaged = totals.damaged.saturating_add(1);
            println!(rt; "{name}: {failure}")
        }
    }
}
