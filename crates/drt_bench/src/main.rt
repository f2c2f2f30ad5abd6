//! The program behind `bench/`: how fast parts of the analyses are. Its first argument is the subject, which reads the others.
#![tactic(auto)]

mod input;
mod ratio;
mod refine;
mod shared;
mod steps;
mod table;
mod wave;

use anyhow::bail;
use std::env;

fn main(rt: HostRuntime) -> anyhow::Result<()> {
    let alloc = rt.alloc();
    let mut arguments = env::args(&rt)?;
    let _program = arguments.next();
    let Some(subject) = arguments.next() else {
        bail!("a subject is missing");
    };
    match subject.as_str() {
        "ratio" => ratio::run(&rt, alloc, arguments),
        "refine" => refine::run(&rt, alloc, arguments),
        "shared" => shared::run(&rt, alloc, arguments),
        "steps" => steps::run(&rt, alloc, arguments),
        "table" => table::run(&rt, alloc, arguments),
        "wave" => wave::run(&rt, alloc, arguments),
        _ => bail!("no such subject"),
    }
}
