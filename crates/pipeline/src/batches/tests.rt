//! Batches of a query: which refusal is told, and that a gate sees each batch begin and end, in order.

use super::*;
use crate::run::run_query;
use mem_num::{AllocId, Full};
use plan_text::{plans_are_fit, read_plan};
use row_text::read_rows;
use std::alloc::AllocGlobal;
use std::cell::Cell;
use std::process::Abort;
use std::test::Fail;

const TABLE: &str = "city,mm
oslo,3
bergen,
oslo,-1
bergen,7
oslo,2
";

/// Three batches begun and done, in order.
const ALL_THREE: u64 = 11_12_21_22_31_32;

/// A gate that notes its calls, two digits each: the batch, and 1 where it begins or 2 where it is done.
#[derive(Drop)]
struct Noting {
    calls: Cell<u64>,
}

impl Noting {
    fn note(&self, call: u64) {
        self.calls
            .set(self.calls.get().wrapping_mul(100).wrapping_add(call));
    }
}

impl Gate for Noting {
    fn at(&self, job: u32) {
        self.note(u64::from(job).wrapping_mul(10).wrapping_add(1));
    }

    fn done(&self, job: u32) {
        self.note(u64::from(job).wrapping_mul(10).wrapping_add(2));
    }
}

/// What comes of a table grouped in batches of two rows under a limit, and the calls of the gate.
fn run(
    rt: &(impl Abort + AllocGlobal),
    limit: &str,
    table: &str,
) -> Result<(Result<(), QueryRefused>, u64), Fail> {
    let alloc = rt.alloc();
    let plan = format!(in alloc;
        "columns = [\"city:text\", \"mm:int\"]
batch = 2
group = \"city\"
sums = [\"mm\"]
{limit}
"
    )?;
    plans_are_fit();
    let Ok(plan) = read_plan(alloc, plan.as_bytes()) else {
        panic!(rt; "no plan");
    };
    let Ok(rows) = read_rows(alloc, plan.columns.as_slice(), table.as_bytes()) else {
        panic!(rt; "no table");
    };
    let gate = Noting {
        calls: Cell::new(0),
    };
    let mut out = Vec::new(alloc);
    let ended = run_query(alloc, &plan, &rows, &gate, &mut out);
    Ok((ended, gate.calls.get()))
}

/// A refusal at an allocator itself, with its numbers and its batch.
fn full(node: u32, held: u64, amount: u64, limit: u64, batch: u32) -> Result<(), QueryRefused> {
    let full = Full {
        node: AllocId(node),
        held,
        amount,
        limit,
        local: true,
    };
    Err(QueryRefused::Full { full, batch })
}

#[test]
fn each_batch_is_begun_and_done_in_order(rt: HostRuntime) -> Result<(), Fail> {
    let (ended, calls) = run(&rt, "", TABLE)?;
    assert_eq!(rt; ended, Ok(()));
    assert_eq!(rt; calls, ALL_THREE);
    Ok(())
}

#[test]
fn a_table_without_rows_has_no_batch_to_begin(rt: HostRuntime) -> Result<(), Fail> {
    let (ended, calls) = run(&rt, "", "city,mm\n")?;
    assert_eq!(rt; ended, Ok(()));
    assert_eq!(rt; calls, 0);
    Ok(())
}

#[test]
fn batches_after_a_refused_one_are_begun_and_done(rt: HostRuntime) -> Result<(), Fail> {
    let (ended, calls) = run(&rt, "limits.scan = 49", TABLE)?;
    assert_eq!(rt; ended, full(1, 34, 16, 49, 1));
    assert_eq!(rt; calls, ALL_THREE);
    Ok(())
}

// The sums of the first batch fill their level, so that both others find it full.
#[test]
fn of_two_refused_batches_the_lesser_is_told(rt: HostRuntime) -> Result<(), Fail> {
    let (ended, calls) = run(&rt, "limits.sums = 70", TABLE)?;
    assert_eq!(rt; ended, full(4, 66, 16, 70, 2));
    assert_eq!(rt; calls, ALL_THREE);
    Ok(())
}

// The first batch needs less than the second, the third least of all.
#[test]
fn a_batch_in_the_middle_may_be_the_only_one_refused(rt: HostRuntime) -> Result<(), Fail> {
    let table = "city,mm\nab,1\ncd,2\noslo,-1\nbergen,7\noslo,2\n";
    let (ended, calls) = run(&rt, "limits.scan = 49", table)?;
    assert_eq!(rt; ended, full(1, 34, 16, 49, 2));
    assert_eq!(rt; calls, ALL_THREE);
    Ok(())
}

#[test]
fn no_batch_is_begun_where_the_opening_is_refused(rt: HostRuntime) -> Result<(), Fail> {
    let (ended, calls) = run(&rt, "limits.root = 9\nreserve.scan = 10", TABLE)?;
    assert_eq!(rt; ended, full(0, 0, 10, 9, 0));
    assert_eq!(rt; calls, 0);
    Ok(())
}
