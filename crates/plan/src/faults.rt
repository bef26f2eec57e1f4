//! What is wrong with a plan's text.

ghost use Rattle.std.specs.Prelude.{◌≡◌, Some};
ghost use Rattle.plan.specs.declared.faults.Flaw.TheVariants.{Form};
ghost use Rattle.plan.specs.Faults.{fault_number, fault_layer, fault_line, fault_field, fault_text, layer_name};

use std::error::Error;
use std::fmt;
use text::numbers::Malformed;

/// A rule that a line breaks.
#[derive(Clone, Copy, Debug)]
pub enum Rule {
    /// Slots times size is at most the partition's blocks.
    PartitionBlocks,
    /// All partitions' blocks together are at most the fabric's.
    FabricBlocks,
    /// There are at most 32 slots in all.
    SlotCount,
    /// A need is at most the slot size of its partition.
    SlotSize,
}

/// What is wrong with a line: its form, the field at a place from 1, or a rule that it breaks.
#[derive(Clone, Copy, Debug)]
pub enum Flaw {
    Form,
    Range(u32),
    Broken(Rule),
}

/// What is wrong with a text: its length, a line, or bytes that stand on a line after the last.
#[derive(Clone, Copy, Debug)]
pub enum Fault {
    Length,
    Line(u32, Flaw),
    Rest(u32),
}

/// What a fault is about.
#[derive(Clone, Copy)]
pub enum Layer {
    Text,
    Line,
    Field,
    Rule,
}

impl fmt::Display for Layer {
    ghost output = { λ layer. Some (layer_name layer) };

    fn fmt<W: fmt::Write>(&self, f: &mut fmt::Formatter<W>) -> fmt::Result {
        f.write_str(match self {
            Layer::Text => "text",
            Layer::Line => "line",
            Layer::Field => "field",
            Layer::Rule => "rule",
        })
    }
}

impl From<Malformed> for Flaw {
    ghost from_gives = { λ _ flaw. flaw ≡ Form };

    fn from(_: Malformed) -> Flaw {
        Flaw::Form
    }
}

impl fmt::Display for Fault {
    ghost output = { λ fault. Some (fault_text fault) };

    fn fmt<W: fmt::Write>(&self, f: &mut fmt::Formatter<W>) -> fmt::Result {
        write!(f, "plan {} {} {}", self.number(), self.line(), self.field())
    }
}

impl Error for Fault {}

impl Fault {
    /// The number of the refusal, 1 to 8.
    pub fn number(&self) -> u32
        ensures { result ≡ fault_number self.now }
    {
        match self {
            Fault::Length => 1,
            Fault::Line(_, Flaw::Form) => 2,
            Fault::Line(_, Flaw::Range(_)) => 3,
            Fault::Line(_, Flaw::Broken(Rule::PartitionBlocks)) => 4,
            Fault::Line(_, Flaw::Broken(Rule::FabricBlocks)) => 5,
            Fault::Line(_, Flaw::Broken(Rule::SlotCount)) => 6,
            Fault::Line(_, Flaw::Broken(Rule::SlotSize)) => 7,
            Fault::Rest(_) => 8,
        }
    }

    pub fn layer(&self) -> Layer
        ensures { result ≡ fault_layer self.now }
    {
        match self {
            Fault::Length | Fault::Rest(_) => Layer::Text,
            Fault::Line(_, Flaw::Form) => Layer::Line,
            Fault::Line(_, Flaw::Range(_)) => Layer::Field,
            Fault::Line(_, Flaw::Broken(_)) => Layer::Rule,
        }
    }

    // A 0 and no `None` here and in `field`: the answer is printed, and a line or field that is not there is printed as 0.
    /// The line, from 1; 0 for a text that is too long, and one past the last for bytes after it.
    pub fn line(&self) -> u32
        ensures { result ≡ fault_line self.now }
    {
        match self {
            Fault::Length => 0,
            Fault::Line(line, _) | Fault::Rest(line) => *line,
        }
    }

    /// The place from 1 of a field that is out of range; 0 for any other fault.
    pub fn field(&self) -> u32
        ensures { result ≡ fault_field self.now }
    {
        match self {
            Fault::Line(_, Flaw::Range(place)) => *place,
            _ => 0,
        }
    }
}
