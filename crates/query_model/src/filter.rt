//! Which rows meet the tests of a filter.
ghost use Rattle.std.specs.Prelude.{◌≡◌, IfOk};
ghost use Rattle.std.specs.List.{list_all};
ghost use Rattle.query_model.specs.Filter as spec;

use crate::cell::Cell;
use crate::cells::Cells;
use crate::op::Op;
use crate::test::Test;
use std::alloc::{AllocError, Global};
use std::cmp::Ordering;

// How a cell compares with a value.
fn order_of(cell: &Cell, value: &Cell) -> Option<Ordering>
    ensures { result ≡ spec.order_of cell.now value.now }
{
    match (cell, value) {
        (Cell::Int(n), Cell::Int(value)) => Some(n.cmp(value)),
        (Cell::Text(text), Cell::Text(value)) => Some(text.as_str().cmp(value.as_str())),
        _ => None,
    }
}

// Whether a comparison accepts an order.
fn accepts(op: Op, order: Ordering) -> bool
    ensures { result ≡ spec.accepts op order }
{
    match op {
        Op::Eq => order.is_eq(),
        Op::Ne => order.is_ne(),
        Op::Lt => order.is_lt(),
        Op::Le => order.is_le(),
        Op::Gt => order.is_gt(),
        Op::Ge => order.is_ge(),
    }
}

/// Whether a row meets a test. Takes no memory.
pub fn meets(row: &[Cell], test: &Test) -> bool
    ensures value { result ≡ spec.meets row.now test.now }
{
    let column = test.column as usize;
    if column < row.len() {
        match order_of(&row[column], &test.value) {
            Some(order) => accepts(test.op, order),
            None => false,
        }
    } else {
        false
    }
}

/// The rows that meet every test, in order, one by one.
pub fn meeting(alloc: Global, tests: &[Test], rows: &[Cells]) -> Result<Vec<Cells>, AllocError>
    ensures value { IfOk result (λ met. met.items ≡ spec.meeting tests.now rows.now) }
{
    let mut met = Vec::new(alloc);
    for row in rows {
        if meets_all(row.as_slice(), tests) {
            met.push(row.copy(alloc)?)?;
        }
    }
    Ok(met)
}

// Whether a row meets every test.
fn meets_all(row: &[Cell], tests: &[Test]) -> bool
    ensures { result ≡ list_all (spec.meets row.now) tests.now }
{
    tests.iter().all(|test| meets(row, test))
}
