//! The runner: reads `plan.txt` from its folder and a script from standard input, and prints the transcript.

#![tactic(auto)]

use script::transcript::transcript;
use std::io::{Read, Write};
use std::{fs, io};

fn main(rt: HostRuntime) -> io::Result<()> {
    // a plan that cannot be read counts as empty
    let plan_text = fs::read(&rt, "plan.txt").unwrap_or_else(|_| Vec::new(rt.alloc()));
    let mut script = Vec::new(rt.alloc());
    rt.stdin().read_to_end(&mut script)?;
    let out = transcript(rt.alloc(), &plan_text, &script)?;
    rt.stdout().write_all(&out)
}
