//! What drawn queries print, beside the plain programs of the definitions.

use super::*;
use crate::refused::QueryRefused;
use crate::run::run_query;
use gate::OpenGate;
use leak_report::is_lawful_report;
use mem_num::Full;
use plan_text::{plans_are_fit, read_plan};
use query_model::{Cells, Row, answer_of, result_sizes};
use row_text::{Rows, read_rows};
use std::alloc::AllocGlobal;
use std::process::Abort;
use std::test::Fail;

const QUERIES: u32 = 300;

/// The columns of every drawn table.
const COLUMNS: [&str; 4] = ["k", "n", "a", "b"];

const LEVELS: [&str; 6] = ["root", "scan", "filter", "project", "sums", "result"];

const OPS: [&str; 6] = ["eq", "ne", "lt", "le", "gt", "ge"];

const TEXTS: [&str; 5] = ["", "x", "yy", "yyz", "longer than the others"];

const NUMBERS: [&str; 7] = [
    "0",
    "-1",
    "5",
    "12",
    "9223372036854775807",
    "-9223372036854775808",
    "-9223372036854775807",
];

/// Fields of a column of numbers: none, or a number.
const FIELDS: [&str; 8] = [
    "",
    "",
    "0",
    "-1",
    "5",
    "12",
    "9223372036854775807",
    "-9223372036854775808",
];

const PICKS: [&str; 5] = [
    "\"k\"",
    "\"n\"",
    "\"b\", \"k\"",
    "\"a\", \"n\"",
    "\"b\", \"a\", \"k\", \"n\"",
];

const SUMMED: [&str; 4] = ["\"a\"", "\"n\"", "\"b\", \"a\"", "\"a\", \"b\", \"n\""];

/// What stands before the output of each query.
const BEFORE: &[u8] = b"before\n";

/// A generator of numbers, the same in each run.
#[derive(Drop)]
struct Draws {
    state: u64,
}

impl Draws {
    /// A number below a bound, and 0 below 0.
    fn below(&mut self, bound: u64) -> u64 {
        self.state = self
            .state
            .wrapping_mul(6_364_136_223_846_793_005)
            .wrapping_add(1_442_695_040_888_963_407);
        (self.state >> 33) % bound.max(1)
    }

    /// One of some texts.
    fn one_of<'a>(&mut self, texts: &[&'a str]) -> &'a str {
        let place = self.below(texts.len() as u64);
        match texts.get(place as usize) {
            Some(text) => text,
            None => "",
        }
    }
}

/// How many queries of each sort were drawn.
#[derive(Clone, Copy, Debug, Drop, PartialEq, Eq)]
struct Tally {
    answered: u32,
    refused: u32,
    grouped: u32,
    selected: u32,
}

/// A test of a column, with a value of its kind.
fn draw_test(alloc: Global, draws: &mut Draws) -> Result<String, Fail> {
    let column = draws.one_of(&COLUMNS);
    let op = draws.one_of(&OPS);
    let text = if column == "k" {
        let value = draws.one_of(&TEXTS);
        format!(in alloc; "{{ column = \"{column}\", op = \"{op}\", value = \"{value}\" }}, ")?
    } else {
        let value = draws.one_of(&NUMBERS);
        format!(in alloc; "{{ column = \"{column}\", op = \"{op}\", value = {value} }}, ")?
    };
    Ok(text)
}

/// A limit of one level, and a reservation of another one.
fn draw_limits(alloc: Global, draws: &mut Draws) -> Result<String, Fail> {
    if draws.below(3) == 0 {
        return Ok(String::new(alloc));
    }
    let limited = draws.one_of(&LEVELS);
    let limit = draws.below(250);
    let reserved = match limited {
        "scan" => "sums",
        _ => "scan",
    };
    let reservation = draws.below(40);
    let text = format!(in alloc;
        "limits.{limited} = {limit}\nreserve.{reserved} = {reservation}\n"
    )?;
    Ok(text)
}

/// A plan, grouped or not.
fn draw_plan(alloc: Global, draws: &mut Draws) -> Result<String, Fail> {
    let mut text = String::from_str(
        alloc,
        "columns = [\"k:text\", \"n:int\", \"a:int\", \"b:int\"]\n",
    )?;
    let batch = draws.below(14).wrapping_add(1);
    text.push_str(&format!(in alloc; "batch = {batch}\n")?)?;
    let output = if draws.below(2) == 0 {
        let picks = draws.one_of(&PICKS);
        format!(in alloc; "select = [{picks}]\n")?
    } else {
        let key = draws.one_of(&COLUMNS);
        let sums = draws.one_of(&SUMMED);
        format!(in alloc; "group = \"{key}\"\nsums = [{sums}]\n")?
    };
    text.push_str(&output)?;
    text.push_str("filter = [")?;
    let tests = draws.below(4);
    'tests: for _ in 0..tests {
        text.push_str(&draw_test(alloc, draws)?)?;
    }
    text.push_str("]\n")?;
    text.push_str(&draw_limits(alloc, draws)?)?;
    Ok(text)
}

/// A table of up to 12 rows.
fn draw_table(alloc: Global, draws: &mut Draws) -> Result<String, Fail> {
    let mut text = String::from_str(alloc, "k,n,a,b\n")?;
    let count = draws.below(13);
    'rows: for _ in 0..count {
        let key = draws.one_of(&TEXTS);
        let n = draws.one_of(&FIELDS);
        let a = draws.one_of(&FIELDS);
        let b = draws.one_of(&FIELDS);
        text.push_str(&format!(in alloc; "{key},{n},{a},{b}\n")?)?;
    }
    Ok(text)
}

/// The rows of a table, each by itself.
fn cells_of(rt: &(impl Abort + AllocGlobal), rows: &Rows) -> Result<Vec<Cells>, Fail> {
    let alloc = rt.alloc();
    let mut made = Vec::new(alloc);
    'rows: for place in 0..rows.len() {
        let Ok(row) = rows.as_slice().row(alloc, place) else {
            panic!(rt; "no memory");
        };
        let Row { cells } = row;
        made.push(cells)?;
    }
    Ok(made)
}

/// A record of fields that need no quotes, but where it would be an empty line.
fn push_record(text: &mut String, record: &str) -> Result<(), Fail> {
    if record.is_empty() {
        text.push_str("\"\"")?;
    } else {
        text.push_str(record)?;
    }
    text.push_str("\n")?;
    Ok(())
}

/// The fields of a row, with commas between.
fn record_of(alloc: Global, cells: &Cells) -> Result<String, Fail> {
    let mut record = String::new(alloc);
    let mut is_first = true;
    'cells: for cell in cells.as_slice() {
        if !is_first {
            record.push_str(",")?;
        }
        is_first = false;
        record.push_str(cell.printed(alloc)?.as_str())?;
    }
    Ok(record)
}

/// The names of the answer's columns, with commas between.
fn header_record(alloc: Global, plan: &Plan) -> Result<String, Fail> {
    let columns = plan.columns.as_slice();
    let (prefix, picks, mut record) = match &plan.output {
        Output::Select(picks) => ("", picks.as_slice(), String::new(alloc)),
        Output::Group { key, sums } => {
            let key = String::from_str(alloc, super::name_at(columns, *key))?;
            (SUM, sums.as_slice(), key)
        }
    };
    'picks: for pick in picks {
        if !record.is_empty() {
            record.push_str(",")?;
        }
        record.push_str(prefix)?;
        record.push_str(super::name_at(columns, *pick))?;
    }
    Ok(record)
}

/// The text of the answer of the definitions.
fn plain_answer(alloc: Global, plan: &Plan, rows: &[Cells]) -> Result<String, Fail> {
    let mut text = String::new(alloc);
    push_record(&mut text, &header_record(alloc, plan)?)?;
    let answer = answer_of(alloc, plan, rows)?;
    'rows: for row in &answer {
        push_record(&mut text, &record_of(alloc, row)?)?;
    }
    Ok(text)
}

/// What the report says of the result: how much it holds, and in how many chunks.
fn check_report(
    rt: &(impl Abort + AllocGlobal),
    plan: &Plan,
    rows: &[Cells],
    report: &[u8],
) -> Result<(), Fail> {
    let alloc = rt.alloc();
    assert_eq!(rt; is_lawful_report(alloc, report), Ok(true));
    let sizes = result_sizes(alloc, plan, rows)?;
    let mut held = 0u64;
    'sizes: for size in &sizes {
        held = held.wrapping_add(*size);
    }
    let mut counted = held;
    'reserves: for reservation in &plan.reserves {
        counted = counted.wrapping_add(*reservation);
    }
    let root = format!(in alloc; "#0 Allocator(ROOT) 0/{counted}/")?;
    assert!(rt; report.starts_with(root.as_bytes()));
    let refs = sizes.len();
    let end = format!(in alloc; "\nrefs {refs}\n")?;
    assert!(rt; report.ends_with(end.as_bytes()));
    Ok(())
}

/// The output of a query that was answered: what stood before, the answer, a lawful report, and that all allocators were closed.
fn check_output(
    rt: &(impl Abort + AllocGlobal),
    plan: &Plan,
    rows: &[Cells],
    out: &[u8],
) -> Result<(), Fail> {
    let Some(output) = out.strip_prefix(BEFORE) else {
        panic!(rt; "what stood before is gone");
    };
    let answer = plain_answer(rt.alloc(), plan, rows)?;
    let Some(rest) = output.strip_prefix(answer.as_bytes()) else {
        panic!(rt; "another answer");
    };
    let Some(report) = rest.strip_suffix(b"closed 6\n".as_slice()) else {
        panic!(rt; "not all were closed");
    };
    check_report(rt, plan, rows, report)
}

/// A refusal tells a limit of the plan that its request would have passed, in a batch that there is.
fn check_refusal(
    rt: &(impl Abort + AllocGlobal),
    plan: &Plan,
    rows: &[Cells],
    full: &Full,
    batch: u32,
) {
    assert_eq!(rt; plan.limits.get(full.node.0 as usize), Some(&full.limit));
    assert!(rt; full.amount > full.limit.saturating_sub(full.held));
    assert!(rt; batch as usize <= rows.len());
}

/// Draws a query, runs it, and looks at what came of it.
fn run_drawn(
    rt: &(impl Abort + AllocGlobal),
    draws: &mut Draws,
    tally: &mut Tally,
) -> Result<(), Fail> {
    let alloc = rt.alloc();
    let text = draw_plan(alloc, draws)?;
    let table = draw_table(alloc, draws)?;
    plans_are_fit();
    let Ok(plan) = read_plan(alloc, text.as_bytes()) else {
        panic!(rt; "no plan");
    };
    let Ok(rows) = read_rows(alloc, plan.columns.as_slice(), table.as_bytes()) else {
        panic!(rt; "no table");
    };
    let mut out = Vec::from_slice(alloc, BEFORE)?;
    let ended = run_query(alloc, &plan, &rows, &OpenGate, &mut out);
    let cells = cells_of(rt, &rows)?;
    match ended {
        Ok(()) => {
            check_output(rt, &plan, &cells, &out)?;
            tally.answered = tally.answered.wrapping_add(1);
        }
        Err(QueryRefused::Full { full, batch }) => {
            assert_eq!(rt; out.as_slice(), BEFORE);
            check_refusal(rt, &plan, &cells, &full, batch);
            tally.refused = tally.refused.wrapping_add(1);
        }
        Err(QueryRefused::NoMemory) => panic!(rt; "no memory"),
    }
    match &plan.output {
        Output::Select(_) => tally.selected = tally.selected.wrapping_add(1),
        Output::Group { .. } => tally.grouped = tally.grouped.wrapping_add(1),
    }
    Ok(())
}

#[test]
fn drawn_queries_print_what_the_definitions_answer(rt: HostRuntime) -> Result<(), Fail> {
    let mut draws = Draws { state: 2026 };
    let mut tally = Tally {
        answered: 0,
        refused: 0,
        grouped: 0,
        selected: 0,
    };
    'queries: for _ in 0..QUERIES {
        run_drawn(&rt, &mut draws, &mut tally)?;
    }
    assert_eq!(rt; tally.answered.wrapping_add(tally.refused), QUERIES);
    assert!(rt; tally.answered >= 100);
    assert!(rt; tally.refused >= 50);
    assert!(rt; tally.grouped >= 100);
    assert!(rt; tally.selected >= 100);
    Ok(())
}
