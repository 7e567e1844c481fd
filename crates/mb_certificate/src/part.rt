//! The lists of starts, joins and paths.

ghost use Rattle.std.specs.Prelude.{◌≡◌, ◌≤◌, IfOk};
ghost use Rattle.mb_certificate.specs.CertificateText.{counted, read_cause, section};
ghost use Rattle.mb_certificate.specs.Reading.{says, times};
ghost use Rattle.mb_tables.specs.Answers.{Gives};

use crate::fault::ReadFault;
use crate::items::Items;
use crate::line_parts::{all_of, counted, traces};
use crate::line_writing::{push_join, push_path, push_start};
use crate::lines::Lines;
use crate::parts::{Join, Path, Start};
use mb_tables::OutOfMemory;
use std::alloc::Global;

/// What a line of a list is.
pub trait Part: Sized {
    ghost use Rattle.std.specs.Prelude.{◌≡◌, ◌++◌, List, OnOk, Result, ℕ};
    ghost use Rattle.mb_text.specs.Lines.{line};
    ghost use Rattle.mb_certificate.specs.CertificateText.{read_cause};
    ghost use Rattle.mb_certificate.specs.Reading.{ItemsLeft};
    ghost use Rattle.mb_tables.specs.Answers.{Gives};

    /// What the items of a line are, or its number where they are none.
    ghost of_items: { ItemsLeft → Result Self ℕ };

    /// Reads a line.
    fn read(alloc: Global, items: &mut Items) -> Result<Self, ReadFault>
        ensures { Gives read_cause (λ x. x) result (of_items items.old) };

    /// The items that are written of one.
    ghost to_items: { Self → List (List ℕ) };

    /// Puts its line at the end of a text.
    fn write(&self, out: &mut Vec<u8>) -> Result<(), OutOfMemory>
        ensures { OnOk result (out.new.items ≡ out.old.items ++ line (to_items self.now)) };
}

impl Part for Start {
    ghost use Rattle.mb_certificate.specs.CertificateText.{start_in};
    ghost use Rattle.mb_certificate.specs.Written.{start_items};

    ghost of_items = { start_in };

    ghost to_items = { start_items };

    fn write(&self, out: &mut Vec<u8>) -> Result<(), OutOfMemory> {
        push_start(out, self)
    }

    fn read(alloc: Global, items: &mut Items) -> Result<Start, ReadFault> {
        let (margin_steps, cell_steps) = traces(alloc, items)?;
        Ok(Start {
            margin_steps,
            cell_steps,
        })
    }
}

impl Part for Join {
    ghost use Rattle.mb_certificate.specs.CertificateText.{join_in};
    ghost use Rattle.mb_certificate.specs.Written.{join_items};

    ghost of_items = { join_in };

    ghost to_items = { join_items };

    fn write(&self, out: &mut Vec<u8>) -> Result<(), OutOfMemory> {
        push_join(out, self)
    }

    fn read(alloc: Global, items: &mut Items) -> Result<Join, ReadFault> {
        let low = items.one::<u32>()?;
        let high = items.one::<u32>()?;
        let (low_steps, high_steps) = traces(alloc, items)?;
        Ok(Join {
            low,
            high,
            low_steps,
            high_steps,
        })
    }
}

impl Part for Path {
    ghost use Rattle.mb_certificate.specs.CertificateText.{path_in};
    ghost use Rattle.mb_certificate.specs.Written.{path_items};

    ghost of_items = { path_in };

    ghost to_items = { path_items };

    fn write(&self, out: &mut Vec<u8>) -> Result<(), OutOfMemory> {
        push_path(out, self)
    }

    fn read(alloc: Global, items: &mut Items) -> Result<Path, ReadFault> {
        let rule = items.one::<u32>()?;
        let count = items.one::<u64>()?;
        let steps = all_of::<i64>(alloc, items, count)?;
        Ok(Path { rule, steps })
    }
}

/// The parts that so many lines are.
fn read_parts<P: Part + Drop>(
    alloc: Global,
    lines: &mut Lines,
    count: u64,
) -> Result<Vec<P>, ReadFault>
    ensures { Gives read_cause (λ v. (v.items, lines.new)) result
        (times (says P.of_items) count lines.old) }
{
    let mut parts = Vec::new(alloc);
    for _ in 0..count {
        parts.push(read_part::<P>(alloc, lines)?)?;
    }
    Ok(parts)
}

/// The part that the next line is.
#[tactic(auto, unfolding(crate::specs::Reading::says))]
fn read_part<P: Part + Drop>(alloc: Global, lines: &mut Lines) -> Result<P, ReadFault>
    ensures { Gives read_cause (λ x. (x, lines.new)) result (says P.of_items lines.old) }
{
    let mut items = lines.next()?;
    let part = P::read(alloc, &mut items)?;
    Ok(part)
}

/// The number that the next line says after a word.
#[tactic(auto, unfolding(crate::specs::Reading::says))]
pub fn read_count(
    lines: &mut Lines,
    word: &[u8],
    lowest: u64,
    highest: u64,
) -> Result<u64, ReadFault>
    ensures count { Gives read_cause (λ n. (n, lines.new)) result
        (says (counted word.now lowest highest) lines.old) }
    ensures highest { IfOk result (λ n. n ≤ highest) }
{
    let mut items = lines.next()?;
    let count = counted(&mut items, word, lowest, highest)?;
    Ok(count)
}

/// A line with a word and a number, and the parts that as many lines are.
pub fn read_section<P: Part + Drop>(
    alloc: Global,
    lines: &mut Lines,
    word: &[u8],
    lowest: u64,
    highest: u64,
) -> Result<Vec<P>, ReadFault>
    ensures { Gives read_cause (λ v. (v.items, lines.new)) result
        (section word.now lowest highest P.of_items lines.old) }
{
    let count = read_count(lines, word, lowest, highest)?;
    read_parts::<P>(alloc, lines, count)
}
