//! Completions.

use crate::completion_cases::CASES;
use mb_completion::{CompleteFault, Completed, complete};
use mb_matrix::Matrix;
use mb_order::{Monomial, Order};
use mb_rules::Rule;
use std::alloc::Global;
use std::test::Fail;

/// What a completion answers, in five numbers: 0, looks, rules, those free of margins, and a
/// number that all exponents make; or 1, the looks and the pair left; or 2 and the pair.
type Answer = [u32; 5];

/// A number, and then one that the exponents of a monomial make of it.
fn with_exponents(number: u32, m: &Monomial) -> u32 {
    let mut number = number;
    for row in 0..m.margins() {
        number = number
            .wrapping_mul(31)
            .wrapping_add(u32::from(m.margin(row)).wrapping_add(1));
    }
    for cell in 0..m.cells() {
        number = number
            .wrapping_mul(31)
            .wrapping_add(u32::from(m.cell(cell)).wrapping_add(1));
    }
    number
}

/// The same of both sides of a rule.
fn with_rule(number: u32, rule: &Rule) -> u32 {
    with_exponents(with_exponents(number, &rule.left), &rule.right)
}

/// The five numbers of a basis.
fn numbers_of(completed: &Completed) -> Answer {
    let mut free = 0u32;
    let mut number = 0u32;
    for k in 0..completed.rules.len() {
        let rule = completed.rules.get(k);
        number = with_rule(number, rule);
        if rule.left.margin_free() {
            free = free.saturating_add(1);
        }
    }
    [0, completed.looks, completed.rules.len(), free, number]
}

/// The design matrix of these entries.
pub fn matrix_of(alloc: Global, rows: u32, cols: u32, entries: &[i32]) -> Result<Matrix, Fail> {
    if u64::from(rows) * u64::from(cols) != entries.len() as u64 {
        return Err(Fail::from("another number of entries"));
    }
    match Matrix::try_new(alloc, rows, cols, entries) {
        Ok(matrix) => Ok(matrix),
        Err(_) => Err(Fail::from("no design matrix")),
    }
}

/// The five numbers that a matrix, an order and a number of looks give.
fn answer(alloc: Global, order: Order, pairs: u32, matrix: &Matrix) -> Result<Answer, Fail> {
    match complete(alloc, matrix, order, pairs.min(1_000_000)) {
        Ok(completed) => Ok(numbers_of(&completed)),
        Err(CompleteFault::Unfinished { looked, left }) => Ok([1, looked, left.0, left.1, 0]),
        Err(CompleteFault::Exponent { pair }) => Ok([2, pair.0, pair.1, 0, 0]),
        Err(CompleteFault::OutOfMemory) => Err(Fail::from("no memory")),
    }
}

/// The order of a number.
fn order_of(number: u32) -> Order {
    if number == 0 {
        Order::Grevlex
    } else {
        Order::Lex
    }
}

/// Whether a case of the plain model is answered so.
fn is_answered(alloc: Global, case: &[u32]) -> Result<bool, Fail> {
    let [order, pairs, rows, cols, rest @ ..] = case else {
        return Err(Fail::from("a short case"));
    };
    let [entries @ .., a, b, c, d, e] = rest else {
        return Err(Fail::from("a case with no answer"));
    };
    let mut numbers = Vec::new(alloc);
    for entry in entries {
        numbers.push((*entry).min(1000) as i32)?;
    }
    let matrix = matrix_of(alloc, *rows, *cols, numbers.as_slice())?;
    Ok(answer(alloc, order_of(*order), *pairs, &matrix)? == [*a, *b, *c, *d, *e])
}

// From the plain model in tests/outside/completion_model.
#[test]
fn random_matrices_complete_as_the_plain_model_says(rt: HostRuntime) -> Result<(), Fail> {
    for case in CASES {
        assert!(rt; is_answered(rt.alloc(), case)?);
    }
    Ok(())
}

/// The exponents of all rules, each left side before its right side.
fn exponents_of(alloc: Global, completed: &Completed) -> Result<Vec<u16>, Fail> {
    let mut list = Vec::new(alloc);
    for k in 0..completed.rules.len() {
        let rule = completed.rules.get(k);
        add_exponents(&mut list, &rule.left)?;
        add_exponents(&mut list, &rule.right)?;
    }
    Ok(list)
}

/// Adds the exponents of a monomial to a list.
fn add_exponents(list: &mut Vec<u16>, m: &Monomial) -> Result<(), Fail> {
    for row in 0..m.margins() {
        list.push(m.margin(row))?;
    }
    for cell in 0..m.cells() {
        list.push(m.cell(cell))?;
    }
    Ok(())
}

/// Whether the rules that complete a matrix, with ample looks, have these exponents.
fn has_rules(
    alloc: Global,
    rows: u32,
    cols: u32,
    entries: &[i32],
    wanted: &[u16],
) -> Result<bool, Fail> {
    let matrix = matrix_of(alloc, rows, cols, entries)?;
    match complete(alloc, &matrix, Order::Grevlex, 1_000_000) {
        Ok(completed) => Ok(exponents_of(alloc, &completed)?.as_slice() == wanted),
        Err(_) => Ok(false),
    }
}

/// Independence in a 2 x 2 table.
pub const TWO_BY_TWO: &[i32] = &[1, 1, 0, 0, 0, 0, 1, 1, 1, 0, 1, 0, 0, 1, 0, 1];

/// The rules of independence in a 2 x 2 table, as the worked certificate lists them.
const WORKED: [u16; 144] = [
    0, 0, 0, 0, 0, 1, 1, 0, 0, 0, 0, 0, 1, 0, 0, 1, 0, 0, 1, 0, 0, 0, 0, 1, 0, 0, 0, 1, 0, 0, 1, 0,
    0, 0, 1, 0, 0, 1, 0, 0, 0, 0, 0, 1, 1, 0, 0, 0, 1, 0, 0, 0, 0, 0, 0, 1, 0, 1, 0, 0, 0, 1, 0, 0,
    1, 0, 0, 0, 0, 0, 1, 0, 0, 1, 0, 0, 1, 0, 0, 0, 0, 1, 0, 1, 0, 0, 0, 0, 0, 0, 0, 0, 0, 0, 0, 1,
    1, 0, 0, 1, 0, 0, 0, 0, 0, 0, 0, 0, 0, 1, 0, 0, 0, 1, 1, 0, 0, 0, 0, 0, 0, 0, 0, 0, 0, 0, 1, 0,
    1, 0, 1, 0, 0, 0, 0, 0, 0, 0, 0, 0, 1, 0, 0, 0,
];

// From the two worked certificates, whose rules were found by hand and by another program.
#[test]
fn worked_rules(rt: HostRuntime) -> Result<(), Fail> {
    let two_cells: [u16; 12] = [0, 1, 0, 0, 0, 1, 1, 0, 0, 0, 0, 1];
    assert!(rt; has_rules(rt.alloc(), 1, 2, &[1, 1], &two_cells)?);
    assert!(rt; has_rules(rt.alloc(), 4, 4, TWO_BY_TWO, &WORKED)?);
    Ok(())
}

/// What a matrix, an order and a number of looks give, without the number of the exponents.
type Case = (Order, u32, u32, u32, &'static [i32], [u32; 4]);

/// Whether a case is answered so.
fn is_right(alloc: Global, case: &Case) -> Result<bool, Fail> {
    let (order, pairs, rows, cols, entries, wanted) = case;
    let matrix = matrix_of(alloc, *rows, *cols, entries)?;
    let [a, b, c, d, _] = answer(alloc, *order, *pairs, &matrix)?;
    Ok([a, b, c, d] == *wanted)
}

// From worked examples: the looks, the rules and those free of margins; the pair that comes next
// when the looks are used up; the pair whose peak is too heavy.
#[test]
fn worked_answers(rt: HostRuntime) -> Result<(), Fail> {
    let cases: [Case; 10] = [
        (Order::Grevlex, 1_000_000, 4, 4, TWO_BY_TWO, [0, 17, 9, 1]),
        (Order::Grevlex, 17, 4, 4, TWO_BY_TWO, [0, 17, 9, 1]),
        (Order::Grevlex, 16, 4, 4, TWO_BY_TWO, [1, 16, 5, 8]),
        (Order::Grevlex, 0, 4, 4, TWO_BY_TWO, [1, 0, 0, 1]),
        (Order::Lex, 1_000_000, 4, 4, TWO_BY_TWO, [0, 17, 9, 1]),
        (Order::Lex, 16, 4, 4, TWO_BY_TWO, [1, 16, 7, 8]),
        (Order::Grevlex, 0, 1, 1, &[1], [0, 0, 1, 0]),
        (
            Order::Grevlex,
            1_000_000,
            2,
            2,
            &[1000, 999, 1, 1],
            [2, 2, 66, 0],
        ),
        (
            Order::Lex,
            1_000_000,
            2,
            2,
            &[1000, 999, 1, 1],
            [2, 2, 66, 0],
        ),
        (Order::Grevlex, 1, 1, 2, &[1, 1], [0, 1, 2, 1]),
    ];
    for case in cases {
        assert!(rt; is_right(rt.alloc(), &case)?);
    }
    Ok(())
}

// By hand: one cell has one rule and no pair; equal columns and a row of zeros add nothing but
// the rule between the cells; units share no symbol.
#[test]
fn odd_matrices(rt: HostRuntime) -> Result<(), Fail> {
    let cases: [Case; 9] = [
        (Order::Grevlex, 0, 1, 1, &[1000], [0, 0, 1, 0]),
        (Order::Lex, 1_000_000, 1, 1, &[1000], [0, 0, 1, 0]),
        (Order::Grevlex, 1, 1, 2, &[1000, 1000], [0, 1, 2, 1]),
        (Order::Grevlex, 0, 1, 2, &[1000, 1000], [1, 0, 0, 1]),
        (Order::Grevlex, 1, 2, 2, &[1, 1, 0, 0], [0, 1, 2, 1]),
        (Order::Lex, 1, 3, 2, &[0, 0, 7, 7, 0, 0], [0, 1, 2, 1]),
        (
            Order::Grevlex,
            0,
            3,
            3,
            &[1, 0, 0, 0, 1, 0, 0, 0, 1],
            [0, 0, 3, 0],
        ),
        (Order::Lex, 0, 2, 2, &[0, 1000, 1000, 0], [0, 0, 2, 0]),
        (Order::Grevlex, 0, 1, 3, &[2, 2, 2], [1, 0, 0, 1]),
    ];
    for case in cases {
        assert!(rt; is_right(rt.alloc(), &case)?);
    }
    Ok(())
}

/// The entries of independence in a table of so many rows and columns.
fn independence(alloc: Global, r: u32, c: u32) -> Result<Vec<i32>, Fail> {
    let mut entries = Vec::new(alloc);
    for row in 0..r {
        for cell in 0..r.wrapping_mul(c) {
            entries.push(i32::from(cell.checked_div(c) == Some(row)))?;
        }
    }
    for column in 0..c {
        for cell in 0..r.wrapping_mul(c) {
            entries.push(i32::from(cell.checked_rem(c) == Some(column)))?;
        }
    }
    Ok(entries)
}

/// Whether independence has r(r+1)/2 * c(c+1)/2 rules, r(r-1)/2 * c(c-1)/2 of them free.
fn has_known_numbers(alloc: Global, r: u32, c: u32) -> Result<bool, Fail> {
    let entries = independence(alloc, r, c)?;
    let matrix = matrix_of(
        alloc,
        r.wrapping_add(c),
        r.wrapping_mul(c),
        entries.as_slice(),
    )?;
    let [end, _, rules, free, _] = answer(alloc, Order::Grevlex, 1_000_000, &matrix)?;
    let wanted = RULES[(r & 3) as usize].wrapping_mul(RULES[(c & 3) as usize]);
    let wanted_free = FREE[(r & 3) as usize].wrapping_mul(FREE[(c & 3) as usize]);
    Ok(end == 0 && rules == wanted && free == wanted_free)
}

/// n (n + 1) / 2 for n = 4, 1, 2, 3.
const RULES: [u32; 4] = [10, 1, 3, 6];

/// n (n - 1) / 2 for n = 4, 1, 2, 3.
const FREE: [u32; 4] = [6, 0, 1, 3];

// From the formula, for all r and c up to 4.
#[test]
fn rules_of_independence(rt: HostRuntime) -> Result<(), Fail> {
    for r in 1..5 {
        for c in 1..5 {
            assert!(rt; has_known_numbers(rt.alloc(), r, c)?);
        }
    }
    Ok(())
}
