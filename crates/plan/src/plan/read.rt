//! The reader of a plan's text.

ghost use Rattle.std.specs.Prelude.{◌≡◌, ℕ, ◌-◌, ◌≤◌, List, length, IfOk, Result};
ghost use Rattle.plan.specs.declared.faults.Flaw.{Flaw};
ghost use Rattle.plan.specs.Reading.{numbers_at, bounded, contents_from, contents_at, ContentsKept, partition_from, PartitionRanged, partition_at, less, accelerator_from, AcceleratorRanged, accelerator_at, items_at, itemized, reading};
ghost use Rattle.plan.specs.Rules.{PartitionKept};
ghost use Rattle.plan.specs.Texts.{laid_out, Filled, Exact};

use crate::faults::{Fault, Flaw, Rule};
use crate::kinds::{Kind, kind_of};
use crate::parts::{Accelerator, Partition};
use crate::plan::Plan;
use crate::plan::contents::Contents;
use crate::plan::left::Left;
use crate::plan::owners::Owners;
use arrayvec::ArrayVec;
use std::ops::Range;
use text::lines::line;
use text::numbers::{Digits, Malformed};

/// The numbers of the line at `at`, which is to be of the kind `wanted`, and the place after it.
fn numbers<const N: usize>(
    text: &[u8],
    at: usize,
    wanted: Kind,
) -> Result<([u64; N], usize), Malformed>
    ensures is { result ≡ numbers_at text.now wanted N at }
{
    let (letter, numbers, next) = line(text, at, Digits::Seven)?;
    if kind_of(letter) != Some(wanted) {
        return Err(Malformed);
    }
    Ok((numbers, next))
}

/// The number of the field at `place`, which is to be `low` to `high`.
fn within(value: u64, low: u32, high: u32, place: u32) -> Result<u32, Flaw>
    ensures is { result ≡ bounded value low high place }
    ensures inside { IfOk result (λ x. (low ≤ x) × (x ≤ high)) }
{
    if (u64::from(low)..=u64::from(high)).contains(&value) {
        Ok(value as u32)
    } else {
        Err(Flaw::Range(place))
    }
}

/// The contents that have these numbers.
fn contents_from(numbers: [u64; 4]) -> Result<Contents, Flaw>
    ensures is { result ≡ contents_from numbers }
    ensures inside { IfOk result ContentsKept }
{
    let [fabric, partitions, accelerators, tasks] = numbers;
    Ok(Contents {
        fabric: within(fabric, 1, 1_000_000, 1)?,
        partitions: within(partitions, 1, 8, 2)?,
        accelerators: within(accelerators, 1, 32, 3)?,
        tasks: within(tasks, 1, 16, 4)?,
    })
}

/// The line of contents, which is the first.
fn contents_line(text: &[u8]) -> Result<(Contents, usize), Flaw>
    ensures is { result ≡ contents_at text.now 0 }
    ensures inside { IfOk result (λ x. ContentsKept x.0) }
{
    let (numbers, next) = numbers::<4>(text, 0, Kind::Contents)?;
    Ok((contents_from(numbers)?, next))
}

/// The partition that has these numbers.
fn partition_from(numbers: [u64; 3]) -> Result<Partition, Flaw>
    ensures is { result ≡ partition_from numbers }
    ensures inside { IfOk result PartitionRanged }
{
    let [blocks, slots, size] = numbers;
    Ok(Partition {
        blocks: within(blocks, 1, 1_000_000, 1)?,
        slots: within(slots, 1, 8, 2)?,
        size: within(size, 1, 1_000_000, 3)?,
    })
}

/// The partition at `at`, of what is left.
fn partition_line(text: &[u8], at: usize, left: Left) -> Result<(Partition, usize), Flaw>
    ensures is { result ≡ partition_at text.now left at }
    ensures inside { IfOk result (λ x. PartitionKept x.0 × (x.0.blocks ≤ left.blocks) × (x.0.slots ≤ left.slots)) }
{
    let (numbers, next) = numbers::<3>(text, at, Kind::Partition)?;
    let partition = partition_from(numbers)?;
    if partition.slots * partition.size > partition.blocks {
        return Err(Flaw::Broken(Rule::PartitionBlocks));
    }
    if partition.blocks > left.blocks {
        return Err(Flaw::Broken(Rule::FabricBlocks));
    }
    if partition.slots > left.slots {
        return Err(Flaw::Broken(Rule::SlotCount));
    }
    Ok((partition, next))
}

/// The accelerator that has these numbers, of one of the partitions and of one of the tasks.
fn accelerator_from(numbers: [u64; 4], owners: Owners) -> Result<Accelerator, Flaw>
    ensures is { result ≡ accelerator_from (length owners.entry.partitions.now) owners.entry.tasks numbers }
    ensures inside { IfOk result (AcceleratorRanged (length owners.entry.partitions.now) owners.entry.tasks) }
{
    let [partition, owner, need, run] = numbers;
    let last_partition = owners.partitions.len() as u32 - 1;
    Ok(Accelerator {
        partition: within(partition, 0, last_partition, 1)?,
        owner: within(owner, 0, owners.tasks - 1, 2)?,
        need: within(need, 1, 1_000_000, 3)?,
        run: within(run, 1, 1_000_000, 4)?,
    })
}

/// The accelerator at `at`.
fn accelerator_line(text: &[u8], at: usize, owners: Owners) -> Result<(Accelerator, usize), Flaw>
    ensures { result ≡ accelerator_at text.now owners.entry.partitions.now owners.entry.tasks at }
{
    let (numbers, next) = numbers::<4>(text, at, Kind::Accelerator)?;
    let accelerator = accelerator_from(numbers, owners)?;
    if accelerator.need > owners.partitions[accelerator.partition as usize].size {
        return Err(Flaw::Broken(Rule::SlotSize));
    }
    Ok((accelerator, next))
}

/// What the items of lines that follow one another are read against.
trait Section: Copy {
    type Item: Copy + Default;

    ghost one: { List ℕ → Self → ℕ → Result (Self.Item × ℕ) Flaw };

    ghost after: { Self → Self.Item → Self };

    /// The item of the line at `at`, and the place after it.
    fn item(&mut self, text: &[u8], at: usize) -> Result<(Self::Item, usize), Flaw>
        ensures is { result ≡ one text.now self.old at }
        ensures left { IfOk result (λ x. self.new ≡ after self.old x.0) };
}

impl Section for Left {
    type Item = Partition;

    ghost one = { partition_at };

    ghost after = { less };

    fn item(&mut self, text: &[u8], at: usize) -> Result<(Partition, usize), Flaw> {
        let (partition, next) = partition_line(text, at, *self)?;
        self.blocks -= partition.blocks;
        self.slots -= partition.slots;
        Ok((partition, next))
    }
}

impl Section for Owners<'_> {
    type Item = Accelerator;

    ghost one = { λ text owners at. accelerator_at text owners.partitions.now owners.tasks at };

    ghost after = { λ owners _. owners };

    fn item(&mut self, text: &[u8], at: usize) -> Result<(Accelerator, usize), Flaw> {
        accelerator_line(text, at, *self)
    }
}

/// The items of these lines, the first of which is at `at`, and the place after them.
fn items<S: Section, const N: usize>(
    text: &[u8],
    at: usize,
    lines: Range<u32>,
    mut section: S,
) -> Result<(ArrayVec<S::Item, N>, usize), Fault>
    requires { lines.end - lines.start ≤ N }
    ensures { itemized result ≡ items_at (S.one text.now) S.after (lines.end - lines.start) lines.start section at }
{
    let mut items = ArrayVec::new();
    let mut next = at;
    for line in lines {
        let (item, after) = section
            .item(text, next)
            .map_err(|flaw| Fault::Line(line, flaw))?;
        items.push(item);
        next = after;
    }
    Ok((items, next))
}

/// The plan that a text says. It keeps the rules, since the text was accepted.
fn parse(text: &[u8]) -> Result<Plan, Fault>
    ensures { laid_out result ≡ reading text.now }
{
    if text.len() > 8192 {
        return Err(Fault::Length);
    }
    let (contents, next) = contents_line(text).map_err(|flaw| Fault::Line(1, flaw))?;
    let first_accelerator = contents.partitions + 2;
    let past = contents.partitions + contents.accelerators + 2;
    let left = Left {
        blocks: contents.fabric,
        slots: 32,
    };
    let (partitions, next) = items(text, next, 2..first_accelerator, left)?;
    let owners = Owners {
        partitions: &partitions,
        tasks: contents.tasks,
    };
    let (accelerators, end) = items(text, next, first_accelerator..past, owners)?;
    if end != text.len() {
        return Err(Fault::Rest(past));
    }
    Ok(Plan {
        fabric: contents.fabric,
        tasks: contents.tasks,
        partitions,
        accelerators,
    })
}

/// Fills the caller's plan from a text, or leaves it as it stands and tells the first fault.
pub fn read(text: &[u8], plan: &mut Plan) -> Result<(), Fault>
    ensures filled { Filled (reading text.now) result plan.old plan.new }
    ensures exact { Exact text.now result plan.new }
{
    *plan = parse(text)?;
    Ok(())
}
