//! Lists many small plan files, and says how many of the answers agree with the expected ones.
#![tactic(auto)]

mod judging;
mod reading;

use anyhow::anyhow;
use judging::judge;
use reading::Case;
use std::{fmt, fs};

/// The files of cases, each with the cases of one group.
const GROUPS: [&str; 13] = [
    "worked.txt",
    "opening.txt",
    "long.txt",
    "cut.txt",
    "limits.txt",
    "shapes.txt",
    "order.txt",
    "state.txt",
    "pairs.txt",
    "changes.txt",
    "full.txt",
    "room.txt",
    "drawn.txt",
];

#[derive(Clone, Copy, Default)]
struct Tally {
    agreeing: u32,
    all: u32,
}

impl Tally {
    fn count(&mut self, agrees: bool) {
        self.all = self.all.saturating_add(1);
        if agrees {
            self.agreeing = self.agreeing.saturating_add(1);
        }
    }

    fn add(&mut self, other: Tally) {
        self.all = self.all.saturating_add(other.all);
        self.agreeing = self.agreeing.saturating_add(other.agreeing);
    }
}

impl fmt::Display for Tally {
    fn fmt<W: fmt::Write>(&self, f: &mut fmt::Formatter<W>) -> fmt::Result {
        let agreeing = self.agreeing;
        let all = self.all;
        write!(f, "{agreeing} of {all} agree")
    }
}

/// Judges the cases of a text, and names those that do not agree.
fn run_text(rt: &HostRuntime, text: &str) -> anyhow::Result<Tally> {
    let mut tally = Tally::default();
    let mut case = Case::new(rt.alloc());
    for line in text.lines() {
        if case.take(line)? {
            let verdict = judge(rt.alloc(), &case)?;
            tally.count(verdict.is_ok());
            if let Err(difference) = verdict {
                let name = case.name.as_str();
                println!(rt; "    {name}: {difference}")?;
            }
            case = Case::new(rt.alloc());
        }
    }
    if case.is_begun() {
        return Err(anyhow!("the last case has no end"));
    }
    Ok(tally)
}

fn run(rt: &HostRuntime) -> anyhow::Result<()> {
    let mut sum = Tally::default();
    for group in GROUPS {
        let text = fs::read_to_string(rt, group)?;
        let tally = run_text(rt, text.as_str())?;
        println!(rt; "{group}: {tally}")?;
        sum.add(tally);
    }
    println!(rt; "{sum}")?;
    Ok(())
}

fn main(rt: HostRuntime) -> anyhow::Result<()> {
    run(&rt)
}
