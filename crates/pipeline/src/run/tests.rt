//! Worked queries, whole: what they print, with limits that just suffice, and what is told where a limit is one byte too small.

use super::*;
use gate::OpenGate;
use mem_num::{AllocId, Full};
use plan_text::{plans_are_fit, read_plan};
use row_text::read_rows;
use std::alloc::AllocGlobal;
use std::process::Abort;
use std::test::Fail;

const TABLE: &str = "city,mm
oslo,3
bergen,
oslo,-1
bergen,7
oslo,2
";

const GROUPED: &str = "columns = [\"city:text\", \"mm:int\"]
batch = 2
group = \"city\"
sums = [\"mm\"]
";

const SELECTED: &str = "columns = [\"city:text\", \"mm:int\"]
batch = 2
select = [\"mm\"]
filter = [{ column = \"mm\", op = \"ge\", value = 0 }]
";

/// What a query appends to a text, or why it has no answer.
fn run(
    rt: &(impl Abort + AllocGlobal),
    plan: &str,
    table: &str,
    out: &mut Vec<u8>,
) -> Result<Result<(), QueryRefused>, Fail> {
    let alloc = rt.alloc();
    plans_are_fit();
    let Ok(plan) = read_plan(alloc, plan.as_bytes()) else {
        panic!(rt; "no plan");
    };
    let Ok(rows) = read_rows(alloc, plan.columns.as_slice(), table.as_bytes()) else {
        panic!(rt; "no table");
    };
    Ok(run_query(alloc, &plan, &rows, &OpenGate, out))
}

/// Whether a query prints this text, and nothing else.
fn prints(
    rt: &(impl Abort + AllocGlobal),
    plan: &str,
    table: &str,
    text: &str,
) -> Result<(), Fail> {
    let mut out = Vec::new(rt.alloc());
    assert_eq!(rt; run(rt, plan, table, &mut out)?, Ok(()));
    assert_eq!(rt; out.as_slice(), text.as_bytes());
    Ok(())
}

/// What the worked table is refused under these lines of a plan, where a text stood before and nothing was appended to it.
fn refusal(
    rt: &(impl Abort + AllocGlobal),
    plan: &str,
    limits: &str,
) -> Result<Result<(), QueryRefused>, Fail> {
    let alloc = rt.alloc();
    let mut out = Vec::from_slice(alloc, b"before\n")?;
    let plan = format!(in alloc; "{plan}{limits}\n")?;
    let refused = run(rt, &plan, TABLE, &mut out)?;
    assert_eq!(rt; out.as_slice(), b"before\n".as_slice());
    Ok(refused)
}

/// A refusal at an allocator, with its numbers and its batch.
fn full(
    node: u32,
    held: u64,
    amount: u64,
    limit: u64,
    local: bool,
    batch: u32,
) -> Result<(), QueryRefused> {
    let node = AllocId(node);
    let full = Full {
        node,
        held,
        amount,
        limit,
        local,
    };
    Err(QueryRefused::Full { full, batch })
}

#[test]
fn the_worked_query_prints_its_groups_and_its_report(rt: HostRuntime) -> Result<(), Fail> {
    let text = "city,sum_mm
bergen,7
oslo,4
#0 Allocator(ROOT) 0/66/228/9223372036854775807 (res/actual/peak/limit)
  #1 Allocator(scan) 0/0/50/9223372036854775807 (res/actual/peak/limit)
  #2 Allocator(filter) 0/0/50/9223372036854775807 (res/actual/peak/limit)
  #3 Allocator(project) 0/0/0/9223372036854775807 (res/actual/peak/limit)
  #4 Allocator(sums) 0/0/162/9223372036854775807 (res/actual/peak/limit)
  #5 Allocator(result) 0/66/66/9223372036854775807 (res/actual/peak/limit)
chunk 37 size 16 owner #5 refs #5:1
chunk 38 size 16 owner #5 refs #5:1
chunk 39 size 2 owner #5 refs #5:1
chunk 40 size 32 owner #5 refs #5:1
refs 4
closed 6
";
    prints(&rt, GROUPED, TABLE, text)
}

#[test]
fn the_worked_selection_keeps_its_batches_apart(rt: HostRuntime) -> Result<(), Fail> {
    let text = "mm
3
7
2
#0 Allocator(ROOT) 0/30/86/9223372036854775807 (res/actual/peak/limit)
  #1 Allocator(scan) 0/0/50/9223372036854775807 (res/actual/peak/limit)
  #2 Allocator(filter) 0/0/26/9223372036854775807 (res/actual/peak/limit)
  #3 Allocator(project) 0/0/30/9223372036854775807 (res/actual/peak/limit)
  #4 Allocator(sums) 0/0/0/9223372036854775807 (res/actual/peak/limit)
  #5 Allocator(result) 0/30/30/9223372036854775807 (res/actual/peak/limit)
chunk 7 size 2 owner #5 refs #5:1
chunk 8 size 8 owner #5 refs #5:1
chunk 15 size 2 owner #5 refs #5:1
chunk 16 size 8 owner #5 refs #5:1
chunk 23 size 2 owner #5 refs #5:1
chunk 24 size 8 owner #5 refs #5:1
refs 6
closed 6
";
    prints(&rt, SELECTED, TABLE, text)
}

#[test]
fn a_table_without_rows_has_no_groups(rt: HostRuntime) -> Result<(), Fail> {
    // A column of texts has one place more than rows, and so 4 bytes for none.
    let text = "city,sum_mm
#0 Allocator(ROOT) 0/4/4/9223372036854775807 (res/actual/peak/limit)
  #1 Allocator(scan) 0/0/0/9223372036854775807 (res/actual/peak/limit)
  #2 Allocator(filter) 0/0/0/9223372036854775807 (res/actual/peak/limit)
  #3 Allocator(project) 0/0/0/9223372036854775807 (res/actual/peak/limit)
  #4 Allocator(sums) 0/0/0/9223372036854775807 (res/actual/peak/limit)
  #5 Allocator(result) 0/4/4/9223372036854775807 (res/actual/peak/limit)
chunk 1 size 4 owner #5 refs #5:1
refs 1
closed 6
";
    prints(&rt, GROUPED, "city,mm\n", text)
}

#[test]
fn a_table_without_rows_has_nothing_to_select(rt: HostRuntime) -> Result<(), Fail> {
    let text = "mm
#0 Allocator(ROOT) 0/0/0/9223372036854775807 (res/actual/peak/limit)
  #1 Allocator(scan) 0/0/0/9223372036854775807 (res/actual/peak/limit)
  #2 Allocator(filter) 0/0/0/9223372036854775807 (res/actual/peak/limit)
  #3 Allocator(project) 0/0/0/9223372036854775807 (res/actual/peak/limit)
  #4 Allocator(sums) 0/0/0/9223372036854775807 (res/actual/peak/limit)
  #5 Allocator(result) 0/0/0/9223372036854775807 (res/actual/peak/limit)
refs 0
closed 6
";
    prints(&rt, SELECTED, "city,mm\n", text)
}

#[test]
fn the_worked_query_runs_under_limits_that_just_suffice(rt: HostRuntime) -> Result<(), Fail> {
    let text = "city,sum_mm
bergen,7
oslo,4
#0 Allocator(ROOT) 0/66/228/228 (res/actual/peak/limit)
  #1 Allocator(scan) 0/0/50/50 (res/actual/peak/limit)
  #2 Allocator(filter) 0/0/50/50 (res/actual/peak/limit)
  #3 Allocator(project) 0/0/0/0 (res/actual/peak/limit)
  #4 Allocator(sums) 0/0/162/162 (res/actual/peak/limit)
  #5 Allocator(result) 0/66/66/66 (res/actual/peak/limit)
chunk 37 size 16 owner #5 refs #5:1
chunk 38 size 16 owner #5 refs #5:1
chunk 39 size 2 owner #5 refs #5:1
chunk 40 size 32 owner #5 refs #5:1
refs 4
closed 6
";
    let limits =
        "limits = { root = 228, scan = 50, filter = 50, project = 0, sums = 162, result = 66 }";
    let plan = format!(in rt.alloc(); "{GROUPED}{limits}\n")?;
    prints(&rt, &plan, TABLE, text)
}

#[test]
fn the_worked_query_appends_to_what_stands_before_it(rt: HostRuntime) -> Result<(), Fail> {
    let mut once = Vec::new(rt.alloc());
    assert_eq!(rt; run(&rt, GROUPED, TABLE, &mut once)?, Ok(()));
    let mut twice = Vec::from_slice(rt.alloc(), &once)?;
    assert_eq!(rt; run(&rt, GROUPED, TABLE, &mut twice)?, Ok(()));
    once.extend_from_slice(&once.to_vec(rt.alloc())?)?;
    assert_eq!(rt; twice.as_slice(), once.as_slice());
    Ok(())
}

#[test]
fn a_reservation_past_the_root_is_refused_before_any_batch(rt: HostRuntime) -> Result<(), Fail> {
    let limits = "limits.root = 9\nreserve = { scan = 4, filter = 6 }";
    assert_eq!(rt; refusal(&rt, GROUPED, limits)?, full(0, 4, 6, 9, true, 0));
    Ok(())
}

#[test]
fn each_level_refuses_a_batch_that_it_is_a_byte_too_small_for(rt: HostRuntime) -> Result<(), Fail> {
    let scan = refusal(&rt, GROUPED, "limits.scan = 49")?;
    assert_eq!(rt; scan, full(1, 34, 16, 49, true, 1));
    let first = refusal(&rt, GROUPED, "limits.filter = 8")?;
    assert_eq!(rt; first, full(2, 0, 16, 8, true, 1));
    let filter = refusal(&rt, GROUPED, "limits.filter = 49")?;
    assert_eq!(rt; filter, full(2, 34, 16, 49, true, 1));
    let sums = refusal(&rt, GROUPED, "limits.sums = 161")?;
    assert_eq!(rt; sums, full(4, 146, 16, 161, true, 3));
    let root = refusal(&rt, GROUPED, "limits.root = 183")?;
    assert_eq!(rt; root, full(0, 168, 16, 183, false, 3));
    Ok(())
}

#[test]
fn a_merge_that_its_level_is_a_byte_too_small_for_is_refused(rt: HostRuntime) -> Result<(), Fail> {
    let result = refusal(&rt, GROUPED, "limits.result = 65")?;
    assert_eq!(rt; result, full(5, 34, 32, 65, true, 0));
    let root = refusal(&rt, GROUPED, "limits.root = 227")?;
    assert_eq!(rt; root, full(0, 196, 32, 227, false, 0));
    Ok(())
}

#[test]
fn a_selection_is_refused_where_its_rows_are_kept(rt: HostRuntime) -> Result<(), Fail> {
    let filter = refusal(&rt, SELECTED, "limits.filter = 25")?;
    assert_eq!(rt; filter, full(2, 18, 8, 25, true, 2));
    let root = refusal(&rt, SELECTED, "limits.root = 85")?;
    assert_eq!(rt; root, full(0, 78, 8, 85, false, 2));
    Ok(())
}
