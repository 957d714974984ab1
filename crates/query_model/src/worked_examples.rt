//! The definitions, run on a small table by their slow programs. `proofs/WorkedExamples.antt` computes the same numbers.

use crate::{
    Cell, Cells, Column, Columns, FILTER, Kind, Op, Output, Picks, Plan, RESULT, SCAN, SUMS, Test,
    Tests, Text, answer_of, groups_of, merged, requests_of, result_sizes,
};
use mem_model::Charge;
use mem_num::AllocId;
use std::alloc::Global;
use std::test::Fail;

fn row(alloc: Global, city: &str, number: Cell) -> Result<Cells, Fail> {
    let mut cells = Vec::new(alloc);
    cells.push(Cell::Text(Text::new(alloc, city)?))?;
    cells.push(number)?;
    Ok(Cells::new(cells))
}

fn table(alloc: Global) -> Result<Vec<Cells>, Fail> {
    let mut rows = Vec::new(alloc);
    rows.push(row(alloc, "oslo", Cell::Int(3))?)?;
    rows.push(row(alloc, "bergen", Cell::Null)?)?;
    rows.push(row(alloc, "oslo", Cell::Int(-1))?)?;
    rows.push(row(alloc, "bergen", Cell::Int(7))?)?;
    rows.push(row(alloc, "oslo", Cell::Int(2))?)?;
    Ok(rows)
}

fn column(alloc: Global, name: &str, kind: Kind) -> Result<Column, Fail> {
    let name = Text::new(alloc, name)?;
    Ok(Column { name, kind })
}

fn picks(alloc: Global, column: u32) -> Result<Picks, Fail> {
    let mut picks = Vec::new(alloc);
    picks.push(column)?;
    Ok(Picks::new(picks))
}

fn plan(alloc: Global, tests: Vec<Test>, output: Output) -> Result<Plan, Fail> {
    let mut columns = Vec::new(alloc);
    columns.push(column(alloc, "city", Kind::Text)?)?;
    columns.push(column(alloc, "mm", Kind::Int)?)?;
    Ok(Plan {
        columns: Columns::new(columns),
        batch: 2,
        tests: Tests::new(tests),
        output,
        limits: [1000; 6],
        reserves: [0; 5],
    })
}

fn grouping(alloc: Global) -> Result<Plan, Fail> {
    let sums = picks(alloc, 1)?;
    plan(alloc, Vec::new(alloc), Output::Group { key: 0, sums })
}

fn selecting(alloc: Global) -> Result<Plan, Fail> {
    let mut tests = Vec::new(alloc);
    tests.push(Test {
        column: 1,
        op: Op::Ge,
        value: Cell::Int(0),
    })?;
    let output = Output::Select(picks(alloc, 1)?);
    plan(alloc, tests, output)
}

// The rows, a line each, with a comma after each cell.
fn shown(alloc: Global, rows: &[Cells]) -> Result<String, Fail> {
    let mut text = String::new(alloc);
    for row in rows {
        for cell in row.as_slice() {
            text.push_str(cell.printed(alloc)?.as_str())?;
            text.push_str(",")?;
        }
        text.push_str("\n")?;
    }
    Ok(text)
}

fn charge(at: AllocId, amount: u64) -> Charge {
    Charge { at, amount }
}

#[test]
fn groups_are_in_order_and_sums_leave_nulls_out(rt: HostRuntime) -> Result<(), Fail> {
    let alloc = rt.alloc();
    let answer = answer_of(alloc, &grouping(alloc)?, &table(alloc)?)?;
    assert_eq!(rt; shown(alloc, &answer)?.as_str(), "bergen,7,\noslo,4,\n");
    Ok(())
}

#[test]
fn groups_of_parts_are_grouped_again(rt: HostRuntime) -> Result<(), Fail> {
    let alloc = rt.alloc();
    let mut parts = Vec::new(alloc);
    parts.push(row(alloc, "bergen", Cell::Null)?)?;
    parts.push(row(alloc, "oslo", Cell::Sum(3))?)?;
    parts.push(row(alloc, "bergen", Cell::Sum(7))?)?;
    parts.push(row(alloc, "oslo", Cell::Sum(1))?)?;
    let answer = merged(alloc, &grouping(alloc)?.output, parts)?;
    assert_eq!(rt; shown(alloc, &answer)?.as_str(), "bergen,7,\noslo,4,\n");
    Ok(())
}

#[test]
fn a_selection_has_the_picked_cells_of_rows_that_meet_its_tests(
    rt: HostRuntime,
) -> Result<(), Fail> {
    let alloc = rt.alloc();
    let answer = answer_of(alloc, &selecting(alloc)?, &table(alloc)?)?;
    assert_eq!(rt; shown(alloc, &answer)?.as_str(), "3,\n7,\n2,\n");
    Ok(())
}

#[test]
fn keys_are_printed_cells_and_a_null_key_is_one(rt: HostRuntime) -> Result<(), Fail> {
    let alloc = rt.alloc();
    let mut rows = Vec::new(alloc);
    rows.push(row(alloc, "a", Cell::Int(10))?)?;
    rows.push(row(alloc, "b", Cell::Null)?)?;
    rows.push(row(alloc, "c", Cell::Int(9))?)?;
    let groups = groups_of(alloc, 1, &[1], &rows)?;
    assert_eq!(rt; shown(alloc, &groups)?.as_str(), ",,\n10,10,\n9,9,\n");
    Ok(())
}

#[test]
fn a_batch_asks_for_its_rows_those_that_it_keeps_and_its_groups(
    rt: HostRuntime,
) -> Result<(), Fail> {
    let alloc = rt.alloc();
    let requests = requests_of(alloc, &grouping(alloc)?, &table(alloc)?, 3)?;
    let wanted = [
        charge(SCAN, 8),
        charge(SCAN, 4),
        charge(SCAN, 2),
        charge(SCAN, 8),
        charge(FILTER, 8),
        charge(FILTER, 4),
        charge(FILTER, 2),
        charge(FILTER, 8),
        charge(SUMS, 8),
        charge(SUMS, 4),
        charge(SUMS, 2),
        charge(SUMS, 16),
    ];
    assert_eq!(rt; requests.as_slice(), wanted.as_slice());
    Ok(())
}

#[test]
fn the_merge_asks_for_the_groups_of_all(rt: HostRuntime) -> Result<(), Fail> {
    let alloc = rt.alloc();
    let requests = requests_of(alloc, &grouping(alloc)?, &table(alloc)?, 0)?;
    let wanted = [
        charge(RESULT, 16),
        charge(RESULT, 16),
        charge(RESULT, 2),
        charge(RESULT, 32),
    ];
    assert_eq!(rt; requests.as_slice(), wanted.as_slice());
    Ok(())
}

#[test]
fn a_selection_keeps_its_picked_columns(rt: HostRuntime) -> Result<(), Fail> {
    let alloc = rt.alloc();
    let kept = result_sizes(alloc, &selecting(alloc)?, &table(alloc)?)?;
    assert_eq!(rt; kept.as_slice(), [2, 8, 2, 8, 2, 8].as_slice());
    Ok(())
}
