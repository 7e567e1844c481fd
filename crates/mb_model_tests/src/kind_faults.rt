//! The faults of model files on datasets.

use crate::datasets::long_text;
use crate::kinds::{THREE, TWO_BY_TWO, model_of};
use mb_kinds::{KindFault, ModelKey};
use mb_matrix::{MatrixFault, MeasureFault};
use mb_moves::GridFault;
use std::test::Fail;

/// Three factors of two levels.
const THREE_FACTORS: &[u8] = b"a,b,c,count\n1,1,1,1\n2,2,2,1\n";

/// Whether the files give that fault.
fn refuses(
    rt: &HostRuntime,
    dataset: &[u8],
    text: &[u8],
    file: Option<&[u8]>,
    wanted: KindFault,
) -> bool {
    match model_of(rt.alloc(), dataset, text, file) {
        Ok(_) => false,
        Err(fault) => fault == Some(wanted),
    }
}

/// Model files, and what is wrong with them on a 2 x 2 table.
const KEYS: [(&[u8], KindFault); 12] = [
    (b"kind = ", KindFault::Toml),
    (b"kind = \"\xff\"\n", KindFault::Toml),
    (
        b"",
        KindFault::MissingKey {
            key: ModelKey::Kind,
        },
    ),
    (
        b"kind = 1\n",
        KindFault::MissingKey {
            key: ModelKey::Kind,
        },
    ),
    (b"kind = \"Rasch\"\n", KindFault::UnknownKind),
    (
        b"kind = \"hierarchical\"\ngenerators = [\"a\"]\nbase = 1\n",
        KindFault::MissingKey {
            key: ModelKey::Generators,
        },
    ),
    (
        b"kind = \"rasch\"\nperson = \"a\"\nresponse = 1\n",
        KindFault::MissingKey {
            key: ModelKey::Item,
        },
    ),
    (
        b"kind = \"hardy-weinberg\"\nclasses = 11\n",
        KindFault::MissingKey {
            key: ModelKey::Classes,
        },
    ),
    (
        b"kind = \"matrix\"\nscale = 1\n",
        KindFault::MissingKey {
            key: ModelKey::Matrix,
        },
    ),
    (
        b"kind = \"quasi-independence\"\nbase = [0, 1, 1, 1]\n",
        KindFault::MissingKey {
            key: ModelKey::Base,
        },
    ),
    (
        b"kind = \"quasi-independence\"\nbase = [4294967296, 1, 1, 1]\n",
        KindFault::MissingKey {
            key: ModelKey::Base,
        },
    ),
    (
        b"kind = \"quasi-independence\"\nbase = [1, 1]\n",
        KindFault::CellCount {
            matrix: 2,
            cells: 4,
        },
    ),
];

// By hand: the first fault in the stated order.
#[test]
fn faults_of_keys(rt: HostRuntime) -> Result<(), Fail> {
    for (text, wanted) in KEYS {
        assert!(rt; refuses(&rt, TWO_BY_TWO, text, None, wanted));
    }
    Ok(())
}

/// Datasets and model files: the factors that a kind names, and the cells that it needs.
const FACTORS: [(&[u8], &[u8], KindFault); 6] = [
    (
        TWO_BY_TWO,
        b"kind = \"hierarchical\"\ngenerators = [[\"a\"], [\"c\"]]\n",
        KindFault::UnknownFactor,
    ),
    (
        TWO_BY_TWO,
        b"kind = \"hierarchical\"\ngenerators = []\n",
        KindFault::EmptyGenerators,
    ),
    (
        THREE,
        b"kind = \"quasi-independence\"\n",
        KindFault::NotTwoFactors,
    ),
    (
        THREE_FACTORS,
        b"kind = \"rasch\"\nperson = \"a\"\nitem = \"a\"\nresponse = \"c\"\n",
        KindFault::NotBinary,
    ),
    (
        TWO_BY_TWO,
        b"kind = \"hardy-weinberg\"\nclasses = 2\n",
        KindFault::CellCount {
            matrix: 3,
            cells: 4,
        },
    ),
    (
        THREE_FACTORS,
        b"kind = \"rasch\"\nperson = \"a\"\nitem = \"b\"\nresponse = \"d\"\n",
        KindFault::UnknownFactor,
    ),
];

// By hand.
#[test]
fn faults_of_factors(rt: HostRuntime) -> Result<(), Fail> {
    for (dataset, text, wanted) in FACTORS {
        assert!(rt; refuses(&rt, dataset, text, None, wanted));
    }
    Ok(())
}

/// Keys beside the kind `matrix`, and matrix files, on two cells.
const MATRICES: [(&[u8], &[u8], KindFault); 13] = [
    (b"", b"2", KindFault::MatrixText(GridFault::NoSize)),
    (
        b"",
        b"1 2 x 1",
        KindFault::MatrixText(GridFault::BadNumber { token: 3 }),
    ),
    (
        b"",
        b"1 2 1",
        KindFault::MatrixText(GridFault::TooFew {
            found: 1,
            wanted: 2,
        }),
    ),
    (
        b"",
        b"1 2 1 1 1",
        KindFault::MatrixText(GridFault::TooMany { wanted: 2 }),
    ),
    (
        b"",
        b"1 2 1 -1",
        KindFault::Matrix(MatrixFault::Negative { row: 0, cell: 1 }),
    ),
    (
        b"",
        b"1 2 1001 1",
        KindFault::Matrix(MatrixFault::EntryTooLarge { row: 0, cell: 0 }),
    ),
    (
        b"scale = [1]",
        b"1 2 2 1",
        KindFault::Measure(MeasureFault::BadScaleRow { row: 1 }),
    ),
    (
        b"",
        b"1 3 1 1 1",
        KindFault::CellCount {
            matrix: 3,
            cells: 2,
        },
    ),
    (
        b"base = [1]",
        b"1 2 1 0",
        KindFault::CellCount {
            matrix: 1,
            cells: 2,
        },
    ),
    (
        b"scale = [9]",
        b"1 2 1 0",
        KindFault::Matrix(MatrixFault::ZeroColumn { cell: 1 }),
    ),
    (
        b"",
        b"2 2 1000 999 1 1",
        KindFault::Measure(MeasureFault::ScaleNotCover { cell: 1 }),
    ),
    (
        b"scale = [0]",
        b"1 2 1 1",
        KindFault::Measure(MeasureFault::BadScaleRow { row: 0 }),
    ),
    (
        b"scale = []",
        b"1 2 1 1",
        KindFault::Measure(MeasureFault::ScaleNotCover { cell: 0 }),
    ),
];

// By hand: the matrix file, its columns, its entries, and then the scale.
#[test]
fn faults_of_matrices(rt: HostRuntime) -> Result<(), Fail> {
    let dataset = b"a,count\nx,1\ny,1\n";
    for (keys, matrix, wanted) in MATRICES {
        let mut text = Vec::from_slice(rt.alloc(), b"kind = \"matrix\"\n")?;
        text.extend_from_slice(keys)?;
        assert!(rt; refuses(&rt, dataset, text.as_slice(), Some(matrix), wanted));
    }
    Ok(())
}

/// Whether a model file gives that fault on a dataset with one factor of 65 levels, and one cell.
fn refuses_long(rt: &HostRuntime, text: &[u8], wanted: KindFault) -> bool {
    match long_text(rt, 64, 1) {
        Ok(dataset) => refuses(rt, dataset.as_slice(), text, None, wanted),
        Err(_) => false,
    }
}

// By hand: a margin of 65 rows, with an empty generator before it.
#[test]
fn margins_past_the_limit(rt: HostRuntime) -> Result<(), Fail> {
    let text = b"kind = \"hierarchical\"\ngenerators = [[], [\"a\"]]\n";
    assert!(rt; refuses_long(&rt, text, KindFault::Matrix(MatrixFault::TooManyMargins)));
    Ok(())
}
