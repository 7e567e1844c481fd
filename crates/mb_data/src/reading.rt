//! Datasets from CSV text.

ghost use Rattle.std.specs.Prelude.{[], ◌≡◌, ◌+◌, ◌<◌, ◌^◌, List, length};
ghost use Rattle.std.specs.Vec.{vec_len};
ghost use Rattle.mb_data.specs.DatasetText.{Row, dataset_of, dataset_under, rows_of, table_of, with_cells};
ghost use Rattle.mb_data.specs.Faults.{cause};
ghost use Rattle.mb_data.specs.loops.Gathers.{HasGathered, HasRead};
ghost use Rattle.mb_data.specs.loops.Headers.{IsHeader};
ghost use Rattle.mb_tables.specs.Answers.{Gives};

use crate::dataset::Dataset;
use crate::fault::DataFault;
use crate::gathered::Gathered;
use crate::header::{Header, read_header};
use crate::records::Records;
use std::alloc::Global;

/// Gathers the rows of the records that are left.
fn read_rows(alloc: Global, header: &Header, records: Records<'_>) -> Result<Gathered, DataFault>
    requires { length records.left + 2 < 2 ^ 64 }
    ensures { HasRead (length header.now.factors) result
        (rows_of header.now 2 [] records.entry.left) }
{
    let mut gathered = Gathered::new(alloc, header.factors())?;
    let mut left = records;
    let mut number: u64 = 2;
    while let Some(next) = left.next()? {
        match gathered.add(alloc, header, &next, number) {
            Ok(()) => left = next,
            Err(fault) => return Err(fault),
        }
        number += 1;
    }
    Ok(gathered)
}

/// The dataset of what was gathered under a header.
fn finish(alloc: Global, header: Header, gathered: Gathered) -> Result<Dataset, DataFault>
    requires header { IsHeader header.factors }
    requires width { vec_len gathered.levels ≡ length header.factors }
    requires rows { (rows : List Row) × HasGathered (length header.factors) rows gathered }
    ensures { (rows : List Row) → HasGathered (length header.factors) rows gathered →
        Gives cause (λ d. d) result (with_cells (table_of header.factors rows)) }
{
    let filled = gathered.fill(alloc)?;
    if filled.cells == 0 {
        return Err(DataFault::NoCell);
    }
    Ok(Dataset::of(header.into_factors(), gathered.into_levels(), filled))
}

/// The dataset of the records after a header.
fn read_under(alloc: Global, header: Header, records: Records<'_>) -> Result<Dataset, DataFault>
    requires header { IsHeader header.factors }
    requires few { length records.left + 2 < 2 ^ 64 }
    ensures { Gives cause (λ d. d) result (dataset_under header records.entry.left) }
{
    match read_rows(alloc, &header, records) {
        Ok(gathered) => finish(alloc, header, gathered),
        Err(fault) => Err(fault),
    }
}

/// The dataset that a CSV text says: a header with the names of the factors and `count`, and a
/// record for each combination of levels that isn't a cell with a count of 0, in any order.
///
/// One byte order mark at the start is skipped, and spaces around a count. The first fault is
/// answered: of the header, then record by record, then NoCell before TooManyCells.
pub fn read_dataset(alloc: Global, text: &[u8]) -> Result<Dataset, DataFault>
    ensures { Gives cause (λ d. d) result (dataset_of text.now) }
{
    let Some(first) = Records::of(alloc, text)?.next()? else {
        return Err(DataFault::Csv { row: 1 });
    };
    match read_header(alloc, &first) {
        Ok(header) => read_under(alloc, header, first),
        Err(fault) => Err(fault),
    }
}
