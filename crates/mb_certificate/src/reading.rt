//! A certificate from its text.

ghost use Rattle.std.specs.Prelude.{◌≡◌, ◌≤◌, All, IfOk, codes, length, map};
ghost use Rattle.mb_certificate.specs.CertificateText.{certificate_of, ending_in, proof_in, read_cause};
ghost use Rattle.mb_tables.specs.Answers.{Gives};
ghost use Rattle.mb_tables.specs.Limits.{most_cells};

use crate::basis_lines::read_basis;
use crate::certificate::Certificate;
use crate::fault::ReadFault;
use crate::line_parts::one_word;
use crate::lines::Lines;
use crate::matrix_lines::read_head;
use crate::part::read_section;
use crate::parts::{Join, Path, Start};
use std::alloc::Global;

/// The starts, as many as there are cells, the joins, and the paths.
#[tactic(auto, unfolding(crate::specs::CertificateText::proof_in))]
fn read_proof(
    alloc: Global,
    lines: &mut Lines,
    cells: u32,
) -> Result<(Vec<Start>, Vec<Join>, Vec<Path>), ReadFault>
    ensures { Gives read_cause (λ p. ((p.0.items, p.1.items, p.2.items), lines.new)) result
        (proof_in cells lines.old) }
{
    let starts = read_section::<Start>(
        alloc,
        lines,
        b"starts",
        u64::from(cells),
        u64::from(cells),
    )?;
    let joins = read_section::<Join>(alloc, lines, b"joins", 0, (1 << 40) - 1)?;
    let paths = read_section::<Path>(alloc, lines, b"paths", 0, u64::from(u32::MAX))?;
    Ok((starts, joins, paths))
}

/// The last line, and the end of the text.
#[tactic(auto, unfolding(crate::specs::CertificateText::ending_in, crate::specs::Reading::says))]
fn read_ending(lines: &mut Lines) -> Result<(), ReadFault>
    ensures { Gives read_cause (λ _. tt) result (ending_in lines.old) }
{
    let mut items = lines.next()?;
    one_word(&mut items, b"end")?;
    lines.end()
}

/// The certificate that a text is. A text that is none is refused at its first wrong line.
///
/// A count that the text states takes no memory: each line is read before there is room for the
/// next.
#[tactic(auto, unfolding(crate::specs::CertificateText::certificate_of))]
pub fn read(alloc: Global, text: &[u8]) -> Result<Certificate, ReadFault>
    ensures { Gives read_cause (λ c. c) result (certificate_of text.now) }
{
    let mut lines = Lines::of(text);
    let (matrix, order) = read_head(alloc, &mut lines)?;
    let (moves, rules) = read_basis(alloc, &mut lines, &matrix)?;
    let (starts, joins, paths) = read_proof(alloc, &mut lines, matrix.cols())?;
    read_ending(&mut lines)?;
    Ok(Certificate::new(matrix, order, moves, rules, starts, joins, paths))
}
