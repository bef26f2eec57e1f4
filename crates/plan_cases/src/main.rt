//! Plan texts, good and damaged, and what the reader tells of each: number, layer, line and field.

#![tactic(auto)]

use plan::plan::Plan;
use plan::plan::read::read;
use std::alloc::{AllocError, Global};
use std::io;

const CASES: &[(&str, &[u8])] = &[
    (
        "the worked example",
        b"c 10 1 2 2\np 10 1 10\na 0 0 10 2\na 0 1 4 1\n",
    ),
    (
        "two partitions",
        b"c 100 2 4 3\np 40 1 40\np 20 1 20\na 0 0 40 4\na 0 0 30 5\na 1 1 20 4\na 1 2 10 6\n",
    ),
    (
        "40 blocks for two slots of 20",
        b"c 40 1 1 1\np 40 2 20\na 0 0 20 1\n",
    ),
    (
        "39 blocks for two slots of 20",
        b"c 40 1 1 1\np 39 2 20\na 0 0 20 1\n",
    ),
    (
        "leading zeros",
        b"c 0000040 01 1 1\np 040 2 0020\na 0 00 20 1\n",
    ),
    (
        "the largest numbers",
        b"c 1000000 1 1 16\np 1000000 1 1000000\na 0 15 1000000 1000000\n",
    ),
    ("an empty text", b""),
    ("an empty line", b"\n"),
    ("no line end", b"c 40 1 1 1\np 40 2 20\na 0 0 20 1"),
    ("no accelerator", b"c 40 1 1 1\np 40 2 20\n"),
    ("no partition", b"c 40 1 1 1\n"),
    (
        "an accelerator for a partition",
        b"c 40 1 1 1\na 0 0 20 1\n",
    ),
    (
        "a partition for an accelerator",
        b"c 40 1 1 1\np 40 2 20\np 40 2 20\n",
    ),
    ("another letter", b"C 40 1 1 1\n"),
    ("eight digits", b"c 00000040 1 1 1\np 40 2 20\na 0 0 20 1\n"),
    ("a fifth number", b"c 40 1 1 1 1\np 40 2 20\na 0 0 20 1\n"),
    (
        "three numbers for four",
        b"c 40 1 1\np 40 2 20\na 0 0 20 1\n",
    ),
    ("two spaces", b"c 40  1 1 1\np 40 2 20\na 0 0 20 1\n"),
    (
        "a space at the end",
        b"c 40 1 1 1 \np 40 2 20\na 0 0 20 1\n",
    ),
    ("a tab", b"c 40\t1 1 1\np 40 2 20\na 0 0 20 1\n"),
    (
        "a carriage return",
        b"c 40 1 1 1\r\np 40 2 20\r\na 0 0 20 1\r\n",
    ),
    ("a NUL", b"c 40 1 1 1\np 40 2\x00 20\na 0 0 20 1\n"),
    ("a sign", b"c 40 1 1 1\np +40 2 20\na 0 0 20 1\n"),
    (
        "a byte above 127",
        b"c 40 1 1 1\np 40 2 20\na 0 0 20 1\xff\n",
    ),
    ("no fabric", b"c 0 1 1 1\np 40 2 20\na 0 0 20 1\n"),
    (
        "a fabric of 1,000,001",
        b"c 1000001 1 1 1\np 40 2 20\na 0 0 20 1\n",
    ),
    ("0 partitions", b"c 40 0 1 1\n"),
    ("9 partitions", b"c 40 9 1 1\n"),
    ("0 accelerators", b"c 40 1 0 1\n"),
    ("33 accelerators", b"c 40 1 33 1\n"),
    ("0 tasks", b"c 40 1 1 0\n"),
    ("17 tasks", b"c 40 1 1 17\n"),
    ("the first of two fields out of range", b"c 0 9 1 1\n"),
    ("0 slots", b"c 40 1 1 1\np 40 0 20\na 0 0 20 1\n"),
    ("9 slots", b"c 40 1 1 1\np 40 9 20\na 0 0 20 1\n"),
    ("slots of 0 blocks", b"c 40 1 1 1\np 40 2 0\na 0 0 20 1\n"),
    ("no such partition", b"c 40 1 1 1\np 40 2 20\na 1 0 20 1\n"),
    ("no such task", b"c 40 1 1 1\np 40 2 20\na 0 1 20 1\n"),
    ("a need of 0", b"c 40 1 1 1\np 40 2 20\na 0 0 0 1\n"),
    ("a run of 0", b"c 40 1 1 1\np 40 2 20\na 0 0 20 0\n"),
    (
        "more blocks than the fabric",
        b"c 40 2 1 1\np 20 1 20\np 21 1 20\na 0 0 20 1\n",
    ),
    (
        "40 slots",
        b"c 80 5 1 1\np 16 8 2\np 16 8 2\np 16 8 2\np 16 8 2\np 16 8 2\na 0 0 1 1\n",
    ),
    (
        "32 slots",
        b"c 80 4 1 1\np 16 8 2\np 16 8 2\np 16 8 2\np 16 8 2\na 3 0 2 1\n",
    ),
    (
        "a need above the slots",
        b"c 40 1 2 1\np 40 2 20\na 0 0 20 1\na 0 0 21 1\n",
    ),
    (
        "form before range before rule",
        b"c 40 1 1 1\np 9 9 9 9\na 0 0 20 1\n",
    ),
    (
        "a line after the last",
        b"c 40 1 1 1\np 40 2 20\na 0 0 20 1\na 0 0 20 1\n",
    ),
];

/// A good text with spaces after it, `size` bytes in all.
fn padded(heap: Global, size: usize) -> Result<Vec<u8>, AllocError> {
    let mut text = Vec::from_slice(heap, b"c 40 1 1 1\np 40 2 20\na 0 0 20 1\n")?;
    text.resize(size, b' ')?;
    Ok(text)
}

fn tell(rt: &HostRuntime, name: &str, text: &[u8]) -> io::Result<()> {
    let mut plan = Plan::empty();
    match read(text, &mut plan) {
        Ok(()) => println!(rt; "{name}: accepted with {} slots", plan.slot_count()),
        Err(fault) => println!(rt;
            "{name}: {} {} {} {}",
            fault.number(),
            fault.layer(),
            fault.line(),
            fault.field()
        ),
    }
}

fn main(rt: HostRuntime) -> io::Result<()> {
    for (name, text) in CASES {
        tell(&rt, name, text)?;
    }
    tell(&rt, "8,192 bytes", &padded(rt.alloc(), 8192)?)?;
    tell(&rt, "8,193 bytes", &padded(rt.alloc(), 8193)?)
}
