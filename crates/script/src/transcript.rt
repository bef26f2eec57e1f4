//! The transcript of a plan text and a script.

ghost use Rattle.std.specs.Prelude.{◌≡◌, ◌++◌, length, IfOk, OnOk};
ghost use Rattle.plan.specs.Layouts.{layout};
ghost use Rattle.ports.specs.Calls.{why_rate};
ghost use Rattle.script.specs.Lines.{lines_of};
ghost use Rattle.script.specs.Transcripts.{line_of, no_line, row_lines, later_lines, on_rate, on_script, transcript_of};

use crate::decimals::print_number;
use crate::lines::{Kind, read_script};
use crate::refusals::ScriptRefusal;
use delays::table::{Row, table};
use plan::plan::Plan;
use plan::plan::read::read;
use ports::delivered::Delivered;
use ports::interruptible::EverySlot;
use ports::memory::Memory;
use ports::port::Port;
use ports::uninterruptible::OneSlot;
use std::alloc::{AllocError, Global};

/// Adds a line of a word and numbers.
// `out` is a plain `Vec`, since the check joins its appends by itself; a struct around it would be no plainer
fn print_line(out: &mut Vec<u8>, word: &[u8], numbers: &[u32]) -> Result<(), AllocError>
    ensures { OnOk result (out.new.items ≡ out.old.items ++ line_of word.now numbers.now) }
{
    out.extend_from_slice(word)?;
    for n in numbers {
        out.push(b' ')?;
        print_number(out, *n)?;
    }
    out.push(b'\n')?;
    Ok(())
}

/// Adds the line of a refusal.
fn print_refusal(out: &mut Vec<u8>, number: u32) -> Result<(), AllocError>
    ensures { OnOk result (out.new.items ≡ out.old.items ++ no_line number) }
{
    print_line(out, b"no", &[number])
}

/// Adds the delay table, a line for each accelerator.
fn print_table<P: Port>(out: &mut Vec<u8>, plan: &Plan, port: &P) -> Result<(), AllocError>
    ensures { OnOk result (out.new.items ≡ out.old.items ++ row_lines (layout plan.now) (P.Port.meaning port.now).rate P.Port.INTERRUPTIBLE (length (layout plan.now).accelerators)) }
{
    let mut rows = [Row::default(); 32];
    // never refused: a plan has at most 32 accelerators
    let _ = table(plan, port, &mut rows);
    for (a, row) in rows[..plan.accelerator_count()].iter().enumerate() {
        print_line(out, b"a", &[a as u32, row.delay, row.write, row.stay])?;
    }
    Ok(())
}

/// Adds the refusal of each line.
fn print_later(out: &mut Vec<u8>, lines: &[u8]) -> Result<(), AllocError>
    ensures { OnOk result (out.new.items ≡ out.old.items ++ later_lines (lines_of lines.now)) }
{
    for _line in lines.split_inclusive(|byte| *byte == b'\n') {
        print_refusal(out, ScriptRefusal::BadLine.number())?;
    }
    Ok(())
}

/// Adds the table on a port of a kind, which is made from `rate`, and the refusals of the rest of the script's lines; or why
/// there is no port.
fn print_run<M: Memory + Drop>(
    out: &mut Vec<u8>,
    plan: &Plan,
    rate: u32,
    rest: &[u8],
) -> Result<(), AllocError>
    ensures { OnOk result (out.new.items ≡ out.old.items ++ on_rate (why_rate rate) (layout plan.now) rate M.Memory.INTERRUPTIBLE (lines_of rest.now)) }
{
    match Delivered::<M>::new(rate) {
        Ok(port) => {
            print_table(out, plan, &port)?;
            print_later(out, rest)
        }
        Err(refusal) => print_refusal(out, refusal.number()),
    }
}

/// Adds what a script prints on a plan that was accepted.
fn print_script(out: &mut Vec<u8>, plan: &Plan, script: &[u8]) -> Result<(), AllocError>
    ensures { OnOk result (out.new.items ≡ out.old.items ++ on_script (layout plan.now) script.now) }
{
    match read_script(script) {
        Ok((Kind::Interruptible, rate, rest)) => print_run::<EverySlot>(out, plan, rate, rest),
        Ok((Kind::Uninterruptible, rate, rest)) => print_run::<OneSlot>(out, plan, rate, rest),
        Err(unread) => print_refusal(out, unread.number()),
    }
}

/// What the runner prints for a plan text and a script.
pub fn transcript(heap: Global, plan_text: &[u8], script: &[u8]) -> Result<Vec<u8>, AllocError>
    ensures { IfOk result (λ v. v.items ≡ transcript_of plan_text.now script.now) }
{
    let mut out = Vec::new(heap);
    let mut plan = Plan::empty();
    match read(plan_text, &mut plan) {
        Ok(()) => print_script(&mut out, &plan, script)?,
        Err(fault) => print_line(
            &mut out,
            b"plan",
            &[fault.number(), fault.line(), fault.field()],
        )?,
    }
    Ok(out)
}
