//! Queries: a plan and a table, as bytes, are run to what is printed.
ghost use Rattle.std.specs.Prelude.{◌≡◌, ◌++◌, ℕ, List, Some, IfErr, OnErr, OnOk};
ghost use Rattle.mem_num.specs.declared.full.Full.{Full as AnyFull};
ghost use Rattle.leak_report.specs.LawfulReport.{IsLawfulReport};
ghost use Rattle.pipeline.specs.Query.{query_report, query_text};
ghost use Rattle.plan_text.specs.Plans.{IsPlanText};
ghost use Rattle.query_model.specs.SequentialCalls.{sequential_refusal};
ghost use Rattle.query_model.specs.declared.cell.Cell.{Cell};
ghost use Rattle.query_model.specs.declared.plan.Plan.{Plan};
ghost use Rattle.row_text.specs.Table.{IsFirstBad, IsTable};

use gate::OpenGate;
use pipeline::{QueryRefused, run_query};
use plan_text::{PlanRefused, plans_are_fit, read_plan};
use row_text::{RowsRefused, read_rows};
use std::alloc::Global;

/// Why a query printed nothing.
#[derive(Clone, Copy, Debug, PartialEq, Eq)]
pub enum Unanswered {
    Plan(PlanRefused),
    Table(RowsRefused),
    Query(QueryRefused),
}

/// Reads a plan and a table, runs the query and appends what it prints.
///
/// Shows `text`, `lawful`, `full` and `err` of `run_query`, and that `read` of `read_plan` with the law `plans_are_fit`, and `kinds` of
/// `read_rows`, give what it asks for.
pub fn print_query(
    alloc: Global,
    plan: &[u8],
    table: &[u8],
    out: &mut Vec<u8>,
) -> Result<(), Unanswered>
    ensures text { OnOk result ((read : Plan) × (rows : List (List Cell)) × IsPlanText plan.now read × IsTable read.columns table.now rows
        × (out.new.items ≡ out.old.items ++ query_text read rows) × IsLawfulReport (query_report read rows)) }
    ensures full { (full : AnyFull) (batch : ℕ) → result ≡ Err (Unanswered.Query (QueryRefused.Full full batch))
        → (read : Plan) × (rows : List (List Cell)) × IsPlanText plan.now read × IsTable read.columns table.now rows
        × (sequential_refusal read rows ≡ Some (record { full = full; batch = batch })) }
    ensures bad { (row : ℕ) → result ≡ Err (Unanswered.Table (RowsRefused.Bad row))
        → (read : Plan) × IsPlanText plan.now read × IsFirstBad read.columns table.now row }
    ensures err { OnErr result (out.new.items ≡ out.old.items) }
{
    plans_are_fit();
    let plan = match read_plan(alloc, plan) {
        Ok(plan) => plan,
        Err(refused) => return Err(Unanswered::Plan(refused)),
    };
    let rows = match read_rows(alloc, plan.columns.as_slice(), table) {
        Ok(rows) => rows,
        Err(refused) => return Err(Unanswered::Table(refused)),
    };
    match run_query(alloc, &plan, &rows, &OpenGate, out) {
        Ok(()) => Ok(()),
        Err(refused) => Err(Unanswered::Query(refused)),
    }
}

#[cfg(test)]
mod tests {
    use super::*;
    use mem_num::{AllocId, Full};
    use std::test::Fail;

    const PLAN: &[u8] = b"columns = [\"operator:text\", \"bytes:int\"]
batch = 2
select = [\"bytes\"]

[[filter]]
column = \"operator\"
op = \"eq\"
value = \"scan\"

[limits]
filter = 22
";

    #[test]
    fn what_meets_the_test_is_printed_with_its_report(rt: HostRuntime) -> Result<(), Fail> {
        let mut out = Vec::new(rt.alloc());
        let printed = print_query(
            rt.alloc(),
            PLAN,
            b"operator,bytes\nscan,64\nsums,8\n",
            &mut out,
        );
        assert_eq!(rt; printed, Ok(()));
        assert_eq!(rt;
            &out[..],
            &b"bytes
64
#0 Allocator(ROOT) 0/10/64/9223372036854775807 (res/actual/peak/limit)
  #1 Allocator(scan) 0/0/42/9223372036854775807 (res/actual/peak/limit)
  #2 Allocator(filter) 0/0/22/22 (res/actual/peak/limit)
  #3 Allocator(project) 0/0/10/9223372036854775807 (res/actual/peak/limit)
  #4 Allocator(sums) 0/0/0/9223372036854775807 (res/actual/peak/limit)
  #5 Allocator(result) 0/10/10/9223372036854775807 (res/actual/peak/limit)
chunk 7 size 2 owner #5 refs #5:1
chunk 8 size 8 owner #5 refs #5:1
refs 2
closed 6
"[..]
        );
        Ok(())
    }

    #[test]
    fn a_batch_that_passes_a_limit_is_told_and_nothing_is_printed(
        rt: HostRuntime,
    ) -> Result<(), Fail> {
        let mut out = Vec::new(rt.alloc());
        let full = Full {
            node: AllocId(2),
            held: 16,
            amount: 8,
            limit: 22,
            local: true,
        };
        let printed = print_query(
            rt.alloc(),
            PLAN,
            b"operator,bytes\nsums,8\nscan,8\nscan,16\nscan,32\n",
            &mut out,
        );
        assert_eq!(rt;
            printed,
            Err(Unanswered::Query(QueryRefused::Full { full, batch: 2 }))
        );
        assert!(rt; out.is_empty());
        Ok(())
    }

    #[test]
    fn a_bad_plan_and_a_bad_row_are_told_apart(rt: HostRuntime) -> Result<(), Fail> {
        let mut out = Vec::new(rt.alloc());
        assert_eq!(rt;
            print_query(rt.alloc(), b"batch = 2\n", b"operator,bytes\n", &mut out),
            Err(Unanswered::Plan(PlanRefused::Bad))
        );
        assert_eq!(rt;
            print_query(
                rt.alloc(),
                PLAN,
                b"operator,bytes\nscan,64\nscan,x\n",
                &mut out
            ),
            Err(Unanswered::Table(RowsRefused::Bad { row: 2 }))
        );
        Ok(())
    }
}
