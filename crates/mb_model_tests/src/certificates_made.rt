//! Certificates that are made of completions.

use crate::completions::{TWO_BY_TWO, matrix_of};
use mb_certificate::{Certificate, write};
use mb_completion::{complete, make};
use mb_matrix::Matrix;
use mb_order::Order;
use std::alloc::Global;
use std::test::Fail;

/// The certificate of a matrix, completed with ample looks.
fn certificate_of(alloc: Global, order: Order, matrix: &Matrix) -> Result<Certificate, Fail> {
    match complete(alloc, matrix, order, 1_000_000) {
        Ok(completed) => match make(alloc, matrix, &completed) {
            Ok(certificate) => Ok(certificate),
            Err(_) => Err(Fail::from("no memory")),
        },
        Err(_) => Err(Fail::from("no rules")),
    }
}

/// A matrix, an order, and the text of its certificate.
type Case = (Order, u32, u32, &'static [i32], &'static str);

/// Whether the certificate that is made has this text.
fn is_written_so(alloc: Global, case: &Case) -> Result<bool, Fail> {
    let (order, rows, cols, entries, wanted) = case;
    let matrix = matrix_of(alloc, *rows, *cols, entries)?;
    let certificate = certificate_of(alloc, *order, &matrix)?;
    match write(alloc, &certificate) {
        Ok(text) => Ok(text.as_slice() == wanted.as_bytes()),
        Err(_) => Err(Fail::from("no memory")),
    }
}

/// That of one margin of two cells.
const TWO_CELLS: &str = "certificate 1\nmatrix 1 2\n1 1\norder grevlex\nmoves 1\n1 -1\n\
    rules 2\n0 1 0 > 0 0 1\n1 0 0 > 0 0 1\nstarts 2\n1 1 1 0\n1 0 1\njoins 0\npaths 1\n\
    0 1 -1\nend\n";

/// That of independence in a 2 x 2 table.
const INDEPENDENCE: &str = "certificate 1\nmatrix 4 4\n1 1 0 0\n0 0 1 1\n1 0 1 0\n0 1 0 1\n\
    order grevlex\nmoves 1\n-1 1 1 -1\nrules 9\n\
    0 0 0 0 0 1 1 0 > 0 0 0 0 1 0 0 1\n0 0 1 0 0 0 0 1 > 0 0 0 1 0 0 1 0\n\
    0 0 1 0 0 1 0 0 > 0 0 0 1 1 0 0 0\n1 0 0 0 0 0 0 1 > 0 1 0 0 0 1 0 0\n\
    1 0 0 0 0 0 1 0 > 0 1 0 0 1 0 0 0\n0 1 0 1 0 0 0 0 > 0 0 0 0 0 0 0 1\n\
    1 0 0 1 0 0 0 0 > 0 0 0 0 0 1 0 0\n0 1 1 0 0 0 0 0 > 0 0 0 0 0 0 1 0\n\
    1 0 1 0 0 0 0 0 > 0 0 0 0 1 0 0 0\nstarts 4\n1 0 8\n1 0 6\n1 0 7\n1 0 5\njoins 17\n\
    0 2 1 0 1\n1 2 1 0 0\n1 3 2 2 4 5 2 5\n0 4 1 0 3\n3 4 1 0 0\n3 6 1 0 5\n4 6 1 1 5 0\n\
    5 6 1 0 3\n1 7 1 0 5\n2 7 1 1 5 0\n5 7 1 0 1\n1 8 2 0 4 5\n2 8 1 0 6\n3 8 2 0 2 5\n\
    4 8 1 0 7\n6 8 1 0 2\n7 8 1 0 4\npaths 1\n0 1 -1\nend\n";

/// That of two margins with a cell each, which has no margin-free rule.
const UNITS: &str = "certificate 1\nmatrix 2 2\n1 0\n0 1\norder lex\nmoves 0\nrules 2\n\
    0 1 0 0 > 0 0 0 1\n1 0 0 0 > 0 0 1 0\nstarts 2\n1 0 1\n1 0 0\njoins 0\npaths 0\nend\n";

// The first two were worked examples, the last by hand.
#[test]
fn made_certificates(rt: HostRuntime) -> Result<(), Fail> {
    let cases: [Case; 3] = [
        (Order::Grevlex, 1, 2, &[1, 1], TWO_CELLS),
        (Order::Grevlex, 4, 4, TWO_BY_TWO, INDEPENDENCE),
        (Order::Lex, 2, 2, &[1, 0, 0, 1], UNITS),
    ];
    for case in cases {
        assert!(rt; is_written_so(rt.alloc(), &case)?);
    }
    Ok(())
}
