//! Models from model files on datasets.

use crate::datasets::long_text;
use mb_data::read_dataset;
use mb_kinds::{KindFault, Model, read_model};
use mb_matrix::Matrix;
use mb_tables::OutOfMemory;
use mb_text::push_text;
use std::alloc::Global;
use std::test::Fail;

/// A 2 x 2 table of factors a and b.
pub(crate) const TWO_BY_TWO: &[u8] = b"a,b,count\n1,1,3\n1,2,1\n2,1,1\n2,2,3\n";

/// One factor with three levels.
pub(crate) const THREE: &[u8] = b"g,count\nAA,1\nAa,0\naa,1\n";

/// Files, and the model that they give.
#[derive(Clone, Copy)]
struct Case {
    dataset: &'static [u8],
    text: &'static [u8],
    matrix: Option<&'static [u8]>,
    rows: &'static [&'static [u16]],
    groups: &'static [u64],
    bases: &'static [u32],
}

/// The model of a model file and a matrix file on a dataset, or its fault.
pub(crate) fn model_of(
    alloc: Global,
    dataset: &[u8],
    text: &[u8],
    file: Option<&[u8]>,
) -> Result<Model, Option<KindFault>> {
    let Ok(dataset) = read_dataset(alloc, dataset) else {
        return Err(None);
    };
    match read_model(alloc, text, file, &dataset) {
        Ok(model) => Ok(model),
        Err(fault) => Err(Some(fault)),
    }
}

/// Whether a matrix has these rows.
fn has_rows(matrix: &Matrix, rows: &[&[u16]]) -> bool {
    if rows.len() != matrix.rows() as usize {
        return false;
    }
    for k in 0..matrix.rows() {
        if matrix.row(k) != rows[k as usize] {
            return false;
        }
    }
    true
}

/// Whether the model is that one.
fn is_model(model: &Model, rows: &[&[u16]], groups: &[u64], bases: &[u32]) -> bool {
    has_rows(model.matrix(), rows)
        && model.measure().groups() == groups
        && model.measure().bases() == bases
}

/// Whether the files of a case give its model.
fn is_given(alloc: Global, case: &Case) -> bool {
    match model_of(alloc, case.dataset, case.text, case.matrix) {
        Ok(model) => is_model(&model, case.rows, case.groups, case.bases),
        Err(_) => false,
    }
}

/// Independence in a 2 x 2 table, two factors named out of order, and an empty generator.
const HIERARCHICAL: [Case; 3] = [
    Case {
        dataset: TWO_BY_TWO,
        text: b"kind = \"hierarchical\"\ngenerators = [[\"a\"], [\"b\"]]\n",
        matrix: None,
        rows: &[&[1, 1, 0, 0], &[0, 0, 1, 1], &[1, 0, 1, 0], &[0, 1, 0, 1]],
        groups: &[0, 0, 1, 1],
        bases: &[1, 1, 1, 1],
    },
    Case {
        dataset: TWO_BY_TWO,
        text: b"kind = \"hierarchical\"\ngenerators = [[\"b\", \"a\", \"b\"]]\n\
            base = [1, 2, 3, 4]\n",
        matrix: None,
        rows: &[&[1, 0, 0, 0], &[0, 1, 0, 0], &[0, 0, 1, 0], &[0, 0, 0, 1]],
        groups: &[0, 1, 2, 3],
        bases: &[1, 2, 3, 4],
    },
    Case {
        dataset: TWO_BY_TWO,
        text: b"kind = \"hierarchical\"\ngenerators = [[]]\n",
        matrix: None,
        rows: &[&[1, 1, 1, 1]],
        groups: &[0, 0, 0, 0],
        bases: &[1, 1, 1, 1],
    },
];

// By hand.
#[test]
fn hierarchical(rt: HostRuntime) -> Result<(), Fail> {
    for case in HIERARCHICAL {
        assert!(rt; is_given(rt.alloc(), &case));
    }
    Ok(())
}

/// Quasi-independence in a 3 x 3 table without its diagonal.
const WITHOUT_DIAGONAL: Case = Case {
    dataset: b"a,b,count\n1,1,*\n1,2,1\n1,3,1\n2,1,1\n2,2,*\n2,3,1\n3,1,1\n3,2,1\n3,3,*\n",
    text: b"kind = \"quasi-independence\"\n",
    matrix: None,
    rows: &[
        &[1, 1, 0, 0, 0, 0],
        &[0, 0, 1, 1, 0, 0],
        &[0, 0, 0, 0, 1, 1],
        &[0, 0, 1, 0, 1, 0],
        &[1, 0, 0, 0, 0, 1],
        &[0, 1, 0, 1, 0, 0],
    ],
    groups: &[0, 0, 1, 1, 2, 2],
    bases: &[1; 6],
};

// By hand.
#[test]
fn quasi_independence(rt: HostRuntime) -> Result<(), Fail> {
    assert!(rt; is_given(rt.alloc(), &WITHOUT_DIAGONAL));
    Ok(())
}

/// The genotypes of two alleles, and matrix files of one cell and with a scale.
const GENOTYPES_AND_MATRICES: [Case; 3] = [
    Case {
        dataset: THREE,
        text: b"kind = \"hardy-weinberg\"\nclasses = 2\n",
        matrix: None,
        rows: &[&[2, 1, 0], &[0, 1, 2]],
        groups: &[0, 0, 0],
        bases: &[1, 2, 1],
    },
    Case {
        dataset: b"a,count\nx,2\n",
        text: b"kind = \"matrix\"\n",
        matrix: Some(b"1 1 1"),
        rows: &[&[1]],
        groups: &[0],
        bases: &[1],
    },
    Case {
        dataset: b"a,count\nx,1\ny,1\n",
        text: b"kind = \"matrix\"\nscale = [2]\n",
        matrix: Some(b"2 2 1000 999 1 1"),
        rows: &[&[1000, 999], &[1, 1]],
        groups: &[0, 0],
        bases: &[1, 1],
    },
];

// By hand.
#[test]
fn genotypes_and_matrices(rt: HostRuntime) -> Result<(), Fail> {
    for case in GENOTYPES_AND_MATRICES {
        assert!(rt; is_given(rt.alloc(), &case));
    }
    Ok(())
}

/// A model file of the Rasch model.
const RASCH: &[u8] = b"kind = \"rasch\"\nperson = \"a\"\nitem = \"b\"\nresponse = \"c\"\n";

/// Three factors and four cells, in which the first two factors agree.
const FOUR_CELLS: &[u8] =
    b"a,b,c,count\n1,1,1,1\n1,1,2,1\n1,2,1,*\n1,2,2,*\n2,1,1,*\n2,1,2,*\n2,2,1,1\n2,2,2,1\n";

/// The rows of the three pairs of factors over these.
const FOUR_CELL_ROWS: &[&[u16]] = &[
    &[1, 1, 0, 0],
    &[0, 0, 0, 0],
    &[0, 0, 0, 0],
    &[0, 0, 1, 1],
    &[1, 0, 0, 0],
    &[0, 1, 0, 0],
    &[0, 0, 1, 0],
    &[0, 0, 0, 1],
    &[1, 0, 0, 0],
    &[0, 1, 0, 0],
    &[0, 0, 1, 0],
    &[0, 0, 0, 1],
];

/// The Rasch model on three factors, and the same with two of them named out of their order.
const FOUR_CELL_MODELS: [Case; 2] = [
    Case {
        dataset: FOUR_CELLS,
        text: RASCH,
        matrix: None,
        rows: FOUR_CELL_ROWS,
        groups: &[0, 0, 3, 3],
        bases: &[1; 4],
    },
    Case {
        dataset: FOUR_CELLS,
        text: b"kind = \"rasch\"\nperson = \"b\"\nitem = \"a\"\nresponse = \"c\"\n",
        matrix: None,
        rows: FOUR_CELL_ROWS,
        groups: &[0, 0, 3, 3],
        bases: &[1; 4],
    },
];

// By hand.
#[test]
fn rasch(rt: HostRuntime) -> Result<(), Fail> {
    for case in FOUR_CELL_MODELS {
        assert!(rt; is_given(rt.alloc(), &case));
    }
    Ok(())
}

/// Three factors and eight cells.
const EIGHT_CELLS: &[u8] =
    b"a,b,c,count\n1,1,1,1\n1,1,2,1\n1,2,1,1\n1,2,2,1\n2,1,1,1\n2,1,2,1\n2,2,1,1\n2,2,2,1\n";

/// The rows of the three pairs of factors over these: of each, its four pairs of levels.
const EIGHT_CELL_ROWS: &[&[u16]] = &[
    &[1, 1, 0, 0, 0, 0, 0, 0],
    &[0, 0, 1, 1, 0, 0, 0, 0],
    &[0, 0, 0, 0, 1, 1, 0, 0],
    &[0, 0, 0, 0, 0, 0, 1, 1],
    &[1, 0, 1, 0, 0, 0, 0, 0],
    &[0, 1, 0, 1, 0, 0, 0, 0],
    &[0, 0, 0, 0, 1, 0, 1, 0],
    &[0, 0, 0, 0, 0, 1, 0, 1],
    &[1, 0, 0, 0, 1, 0, 0, 0],
    &[0, 1, 0, 0, 0, 1, 0, 0],
    &[0, 0, 1, 0, 0, 0, 1, 0],
    &[0, 0, 0, 1, 0, 0, 0, 1],
];

/// The hierarchical model of three pairs of factors, and the Rasch model, which is the same.
const EIGHT_CELL_MODELS: [Case; 2] = [
    Case {
        dataset: EIGHT_CELLS,
        text: b"kind = \"hierarchical\"\n\
            generators = [[\"a\", \"b\"], [\"a\", \"c\"], [\"b\", \"c\"]]\n",
        matrix: None,
        rows: EIGHT_CELL_ROWS,
        groups: &[0, 0, 1, 1, 2, 2, 3, 3],
        bases: &[1; 8],
    },
    Case {
        dataset: EIGHT_CELLS,
        text: RASCH,
        matrix: None,
        rows: EIGHT_CELL_ROWS,
        groups: &[0, 0, 1, 1, 2, 2, 3, 3],
        bases: &[1; 8],
    },
];

// By hand.
#[test]
fn three_pairs(rt: HostRuntime) -> Result<(), Fail> {
    for case in EIGHT_CELL_MODELS {
        assert!(rt; is_given(rt.alloc(), &case));
    }
    Ok(())
}

/// A matrix file with one row of 64 ones.
fn row_of_ones(rt: &HostRuntime) -> Result<Vec<u8>, OutOfMemory> {
    let mut text = Vec::from_slice(rt.alloc(), b"1 64\n")?;
    for _ in 0..64u32 {
        push_text(&mut text, b"1 ")?;
    }
    Ok(text)
}

/// Whether that file is the model of a total over 64 cells.
fn is_total_of_64(rt: &HostRuntime) -> Result<bool, OutOfMemory> {
    let file = row_of_ones(rt)?;
    let dataset = long_text(rt, 0, 64)?;
    let text = b"kind = \"matrix\"\n";
    let model = model_of(rt.alloc(), dataset.as_slice(), text, Some(file.as_slice()));
    let rows: [&[u16]; 1] = [&[1; 64]];
    Ok(match model {
        Ok(model) => is_model(&model, &rows, &[0; 64], &[1; 64]),
        Err(_) => false,
    })
}

#[test]
fn total_of_64_cells(rt: HostRuntime) -> Result<(), Fail> {
    assert!(rt; is_total_of_64(&rt) == Ok(true));
    Ok(())
}
