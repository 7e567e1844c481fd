//! The numbers of exact tests.

ghost use Rattle.std.specs.Prelude.{◌≡◌, IfOk};
ghost use Rattle.mb_matrix.specs.Measure.{IsMeasureOf};

use mb_certificate::{Certificate, Reason, read};
use mb_desk::{Figures, NumbersFault, numbers};
use mb_matrix::{Matrix, Measure, Scale};
use mb_order::Order;
use mb_outside::NoGate;
use mb_samples::{FOUR_BY_FOUR, certificate_of, has_small_margins, matrix_of};
use mb_tables::Table;
use std::alloc::Global;
use std::test::Fail;
use std::thread::Threads;

/// What is tested: a model, a table and a limit.
#[derive(Clone, Copy)]
pub(crate) struct Sample<'a> {
    /// The text of the design matrix.
    pub(crate) matrix: &'a str,
    /// The order that completes its rules.
    pub(crate) order: Order,
    /// The rows of the scale; where there are none, it is that of all cells.
    pub(crate) scale: &'a [u32],
    pub(crate) base: &'a [u32],
    pub(crate) table: &'a [u32],
    pub(crate) limit: u32,
}

/// What is wanted of it.
#[derive(Clone, Copy)]
enum Wanted {
    /// These numbers. The rings begin so, and have so many tables together.
    Numbers {
        rings: &'static [u32],
        tables: u32,
        weight: u128,
        below: u128,
        whole: u128,
    },
    TooLarge {
        seen: u32,
    },
    TooWide,
}

/// The independence of two factors of two levels.
const TWO_BY_TWO: &str = "4 4 1 1 0 0 0 0 1 1 1 0 1 0 0 1 0 1";

/// Hardy and Weinberg's law for two alleles.
const TWO_ALLELES: &str = "2 3 2 1 0 0 1 2";

/// The quasi-independence of two factors of three levels, off the diagonal.
const OFF_DIAGONAL: &str = "6 6
1 1 0 0 0 0
0 0 1 1 0 0
0 0 0 0 1 1
0 0 1 0 1 0
1 0 0 0 0 1
0 1 0 1 0 0";

/// No three-way interaction of three factors of two levels.
const THREE_WAY: &str = "12 8
1 1 0 0 0 0 0 0
0 0 1 1 0 0 0 0
0 0 0 0 1 1 0 0
0 0 0 0 0 0 1 1
1 0 1 0 0 0 0 0
0 1 0 1 0 0 0 0
0 0 0 0 1 0 1 0
0 0 0 0 0 1 0 1
1 0 0 0 1 0 0 0
0 1 0 0 0 1 0 0
0 0 1 0 0 0 1 0
0 0 0 1 0 0 0 1";

/// A ring of one table at each of 66 distances.
const PATH: &[u32] = &[1; 66];

/// A table of two factors of two levels, sampled by rows.
fn square(table: &'static [u32], limit: u32) -> Sample<'static> {
    Sample {
        matrix: TWO_BY_TWO,
        order: Order::Grevlex,
        scale: &[1, 2],
        base: &[1; 4],
        table,
        limit,
    }
}

/// The measure of a scale and base numbers on a matrix.
fn measure_of(alloc: Global, matrix: &Matrix, scale: &[u32], base: &[u32]) -> Result<Measure, Fail>
    ensures { IfOk result (IsMeasureOf matrix.now) }
{
    if base.len() != matrix.cols() as usize {
        return Err(Fail::from("another number of base numbers"));
    }
    let scale = if scale.is_empty() {
        Scale::All
    } else {
        Scale::Rows(Vec::from_slice(alloc, scale)?)
    };
    match Measure::try_new(alloc, matrix, scale, base) {
        Ok(measure) => Ok(measure),
        Err(_) => Err(Fail::from("no measure")),
    }
}

/// The numbers of a table by a certificate, with a measure on its matrix.
fn numbers_by<R: Threads + Sync>(
    rt: &R,
    alloc: Global,
    certificate: &Certificate,
    measure: &Measure,
    counts: &[u32],
    limit: u32,
) -> Result<Result<Figures, NumbersFault>, Fail>
    requires { IsMeasureOf certificate.now.matrix measure.now }
{
    let table = Table::try_new(alloc, counts)?;
    let matrix = certificate.matrix();
    if table.len() != matrix.cols() || !has_small_margins(alloc, matrix, &table) {
        return Err(Fail::from("no table of the matrix"));
    }
    if limit < 1 || limit > 2_000_000 {
        return Err(Fail::from("no limit"));
    }
    Ok(numbers(rt, alloc, certificate, measure, &table, limit, 1, &NoGate))
}

/// The numbers of a sample.
pub(crate) fn numbers_of<R: Threads + Sync>(
    rt: &R,
    alloc: Global,
    sample: &Sample<'_>,
) -> Result<Result<Figures, NumbersFault>, Fail> {
    let matrix = matrix_of(alloc, sample.matrix)?;
    let measure = measure_of(alloc, &matrix, sample.scale, sample.base)?;
    let certificate = certificate_of(alloc, &matrix, sample.order)?;
    numbers_by(
        rt,
        alloc,
        &certificate,
        &measure,
        sample.table,
        sample.limit,
    )
}

/// The number of tables in all rings.
pub(crate) fn total(rings: &[u32]) -> u32 {
    let mut total = 0u32;
    for size in rings {
        total = total.saturating_add(*size);
    }
    total
}

/// Whether figures are those that are wanted.
fn are_wanted(found: &Result<Figures, NumbersFault>, wanted: &Wanted) -> bool {
    match (found, wanted) {
        (
            Ok(figures),
            Wanted::Numbers {
                rings,
                tables,
                weight,
                below,
                whole,
            },
        ) => {
            figures.rings.as_slice().starts_with(rings)
                && total(figures.rings.as_slice()) == *tables
                && (figures.weight, figures.below, figures.whole) == (*weight, *below, *whole)
        }
        (Err(NumbersFault::TooLarge { seen }), Wanted::TooLarge { seen: wanted }) => seen == wanted,
        (Err(NumbersFault::TooWide), Wanted::TooWide) => true,
        _ => false,
    }
}

/// Whether a sample has the numbers that are wanted.
fn has<R: Threads + Sync>(
    rt: &R,
    alloc: Global,
    sample: Sample<'static>,
    wanted: Wanted,
) -> Result<bool, Fail> {
    let found = numbers_of(rt, alloc, &sample)?;
    Ok(are_wanted(&found, &wanted))
}

// By hand: the weights are the products of the rows' binomial coefficients. By rows of 4 the five
// tables weigh 1, 16, 36, 16 and 1; a diagonal of 65 has the sum C(130, 65), and one of 66 has
// C(132, 66), which is past 2^128.
#[test]
fn two_by_two(rt: HostRuntime) -> Result<(), Fail> {
    let (rt, alloc) = (&rt, rt.alloc());
    let none = Wanted::Numbers {
        rings: &[1],
        tables: 1,
        weight: 1,
        below: 1,
        whole: 1,
    };
    let five = Wanted::Numbers {
        rings: &[1, 2, 1, 1],
        tables: 5,
        weight: 16,
        below: 34,
        whole: 70,
    };
    let long = Wanted::Numbers {
        rings: PATH,
        tables: 66,
        weight: 1,
        below: 2,
        whole: 95_067_625_827_960_698_145_584_333_020_095_113_100,
    };
    assert!(rt; has(rt, alloc, square(&[0, 0, 0, 0], 1), none)?);
    assert!(rt; has(rt, alloc, square(&[3, 1, 1, 3], 5), five)?);
    assert!(rt;
        has(
            rt,
            alloc,
            square(&[3, 1, 1, 3], 4),
            Wanted::TooLarge { seen: 5 }
        )?
    );
    assert!(rt; has(rt, alloc, square(&[65, 0, 0, 65], 100), long)?);
    assert!(rt; has(rt, alloc, square(&[66, 0, 0, 66], 100), Wanted::TooWide)?);
    assert!(rt;
        has(
            rt,
            alloc,
            square(&[66, 0, 0, 66], 66),
            Wanted::TooLarge { seen: 67 }
        )?
    );
    Ok(())
}

/// A table of the law of Hardy and Weinberg: genotypes of two alleles, one sample.
fn genotypes(table: &'static [u32]) -> Sample<'static> {
    Sample {
        matrix: TWO_ALLELES,
        order: Order::Grevlex,
        scale: &[],
        base: &[1, 2, 1],
        table,
        limit: 2_000_000,
    }
}

/// A table of two factors of three levels, off the diagonal.
fn off_diagonal(table: &'static [u32]) -> Sample<'static> {
    Sample {
        matrix: OFF_DIAGONAL,
        order: Order::Grevlex,
        scale: &[1, 2, 3],
        base: &[1; 6],
        table,
        limit: 2_000_000,
    }
}

// By hand: of the genotypes of two alleles 1 0 1 weighs 2 and 0 2 0 weighs 4. Off the diagonal the
// one move goes round the six cells.
#[test]
fn chains_of_one_move(rt: HostRuntime) -> Result<(), Fail> {
    let (rt, alloc) = (&rt, rt.alloc());
    let two = Wanted::Numbers {
        rings: &[1, 1],
        tables: 2,
        weight: 2,
        below: 2,
        whole: 6,
    };
    let middle = Wanted::Numbers {
        rings: &[1, 2],
        tables: 3,
        weight: 8,
        below: 10,
        whole: 10,
    };
    let end = Wanted::Numbers {
        rings: &[1, 1, 1],
        tables: 3,
        weight: 1,
        below: 2,
        whole: 10,
    };
    assert!(rt; has(rt, alloc, genotypes(&[1, 0, 1]), two)?);
    assert!(rt; has(rt, alloc, off_diagonal(&[1, 1, 1, 1, 1, 1]), middle)?);
    assert!(rt; has(rt, alloc, off_diagonal(&[2, 0, 0, 2, 2, 0]), end)?);
    Ok(())
}

// Worked: by rows of three the diagonal of a 4 x 4 table has 2008 tables in its fiber; of the three
// tables of ones with no three-way interaction none is likelier than that of ones.
#[test]
fn larger_tables(rt: HostRuntime) -> Result<(), Fail> {
    let (rt, alloc) = (&rt, rt.alloc());
    let diagonal = Sample {
        matrix: FOUR_BY_FOUR,
        order: Order::Grevlex,
        scale: &[1, 2, 3, 4],
        base: &[1; 16],
        table: &[3, 0, 0, 0, 0, 3, 0, 0, 0, 0, 3, 0, 0, 0, 0, 3],
        limit: 2008,
    };
    let many = Wanted::Numbers {
        rings: &[1, 6],
        tables: 2008,
        weight: 1,
        below: 24,
        whole: 369_600,
    };
    let cube = Sample {
        matrix: THREE_WAY,
        order: Order::Grevlex,
        scale: &[1, 2, 3, 4],
        base: &[1; 8],
        table: &[1; 8],
        limit: 3,
    };
    let three = Wanted::Numbers {
        rings: &[1, 2],
        tables: 3,
        weight: 16,
        below: 18,
        whole: 18,
    };
    assert!(rt; has(rt, alloc, diagonal, many)?);
    assert!(rt; has(rt, alloc, cube, three)?);
    Ok(())
}

/// 3 at the first of 64 cells, and else 0.
fn three_at_first(alloc: Global) -> Result<Vec<u32>, Fail> {
    let mut counts = vec![in alloc; 0u32; 64]?;
    if let Some(first) = counts.first_mut() {
        *first = 3;
    }
    Ok(counts)
}

/// The numbers of 3 in the first of 64 cells, whose total alone is fixed.
fn one_margin<R: Threads + Sync>(
    rt: &R,
    alloc: Global,
) -> Result<Result<Figures, NumbersFault>, Fail> {
    let ones = vec![in alloc; 1i32; 64]?;
    let base = vec![in alloc; 1u32; 64]?;
    let matrix = Matrix::try_new(alloc, 1, 64, ones.as_slice())?;
    let measure = measure_of(alloc, &matrix, &[], base.as_slice())?;
    let certificate = certificate_of(alloc, &matrix, Order::Grevlex)?;
    let counts = three_at_first(alloc)?;
    numbers_by(rt, alloc, &certificate, &measure, counts.as_slice(), 45_760)
}

// Worked: there are C(66, 3) tables, which together weigh 64^3, and 64 of them weigh 1.
#[test]
fn sixty_four_cells(rt: HostRuntime) -> Result<(), Fail> {
    let wanted = Wanted::Numbers {
        rings: &[1, 1, 63, 63, 2015, 1953, 41_664],
        tables: 45_760,
        weight: 1,
        below: 64,
        whole: 262_144,
    };
    let found = one_margin(&rt, rt.alloc())?;
    assert!(rt; are_wanted(&found, &wanted));
    Ok(())
}

/// A certificate of the matrix of one row `1 1` whose rule isn't oriented downwards.
const WRONG: &[u8] = b"certificate 1
matrix 1 2
1 1
order grevlex
moves 1
1 -1
rules 2
0 0 1 > 0 1 0
1 0 0 > 0 0 1
starts 2
1 1 1 0
1 0 1
joins 0
paths 1
0 1 -1
end
";

/// The first wrong line of a certificate, as the numbers of a table of two cells tell it.
fn wrong_line<R: Threads + Sync>(rt: &R, alloc: Global) -> Result<Option<(u64, Reason)>, Fail> {
    let Ok(certificate) = read(alloc, WRONG) else {
        return Err(Fail::from("no certificate"));
    };
    let measure = measure_of(alloc, certificate.matrix(), &[], &[1, 1])?;
    match numbers_by(rt, alloc, &certificate, &measure, &[1, 1], 1)? {
        Err(NumbersFault::Certificate { line, reason }) => Ok(Some((line, reason))),
        _ => Ok(None),
    }
}

// By hand: a certificate that isn't valid is refused before its tables are counted.
#[test]
fn a_certificate_is_checked_first(rt: HostRuntime) -> Result<(), Fail> {
    assert!(rt; wrong_line(&rt, rt.alloc())? == Some((8, Reason::NotDown)));
    Ok(())
}
