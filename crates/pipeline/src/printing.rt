//! What a query prints: its answer as a table, the report of its tree, and how many of its allocators were closed.
ghost use Rattle.std.specs.Prelude.{◌≡◌, [], ◌∷◌, ◌++◌, ℕ, IfOk, OnOk, codes, decimal, map, string_bytes, true, false};
ghost use Rattle.mem_num.specs.Name.{is_name};
ghost use Rattle.mem_model.specs.MeasuredTree.{peak_at};
ghost use Rattle.alloc_tree.specs.Names.{is_bound};
ghost use Rattle.leak_report.specs.LawfulReport.{IsLawfulReport};
ghost use Rattle.leak_report.specs.ReportText as spec;
ghost use Rattle.operators.specs.Groups.{rows_in_all};
ghost use Rattle.row_text.specs.Answer.{table_text};
ghost use Rattle.pipeline.specs.Query.{closed_text, header_of, name_at, query_names};

use alloc_tree::{Names, SoloTree};
use batch_vec::{Batch, rows_of};
use leak_report::report_text;
use mem_num::{AllocId, NoMemory, Ref};
use query_model::{Column, Output, Plan, Text};
use row_text::{header_text, rows_text};
use std::alloc::{AllocError, Global};

/// What stands before the name of a summed column.
const SUM: &str = "sum_";

/// Appends the answer that batches hold, one after the other, under the names of its columns.
pub(crate) fn write_answer(
    alloc: Global,
    plan: &Plan,
    batches: &[Batch<Ref>],
    out: &mut Vec<u8>,
) -> Result<(), NoMemory>
    ensures text { OnOk result (out.new.items ≡ out.old.items ++ table_text (header_of plan.now) (rows_in_all batches.now)) }
{
    let Ok(names) = header(alloc, plan) else {
        return Err(NoMemory);
    };
    header_text(alloc, &names, out)?;
    'batches: for batch in batches {
        let rows = rows_of(alloc, batch)?;
        rows_text(alloc, &rows.as_slice(), out)?;
    }
    Ok(())
}

/// Appends the report of the tree of a query.
pub(crate) fn write_report(
    alloc: Global,
    tree: &SoloTree,
    out: &mut Vec<u8>,
) -> Result<(), NoMemory>
    ensures text { OnOk result (out.new.items
        ≡ out.old.items ++ spec.report_text (query_names ∷ []) (peak_at tree.now) tree.now.state) }
    ensures lawful { OnOk result (IsLawfulReport (spec.report_text (query_names ∷ []) (peak_at tree.now) tree.now.state)) }
{
    let names = [names(alloc)?];
    let report = report_text(alloc, tree, &names)?;
    append(report.as_bytes(), out)
}

/// Appends how many allocators were closed.
pub(crate) fn write_closed(alloc: Global, count: u32, out: &mut Vec<u8>) -> Result<(), NoMemory>
    ensures text { OnOk result (out.new.items ≡ out.old.items ++ closed_text count) }
{
    let Ok(line) = format!(in alloc; "closed {count}\n") else {
        return Err(NoMemory);
    };
    append(line.as_bytes(), out)
}

// Appends a text.
fn append(text: &[u8], out: &mut Vec<u8>) -> Result<(), NoMemory>
    ensures text { OnOk result (out.new.items ≡ out.old.items ++ text.now) }
{
    match out.extend_from_slice(text) {
        Ok(()) => Ok(()),
        Err(AllocError) => Err(NoMemory),
    }
}

// The names of the answer's columns.
fn header(alloc: Global, plan: &Plan) -> Result<Vec<Text>, AllocError>
    ensures names { IfOk result (λ names. names.items ≡ header_of plan.now) }
{
    let columns = plan.columns.as_slice();
    let mut names = Vec::new(alloc);
    match &plan.output {
        Output::Select(picks) => add_names(alloc, columns, "", picks.as_slice(), &mut names)?,
        Output::Group { key, sums } => {
            names.push(Text::new(alloc, name_at(columns, *key))?)?;
            add_names(alloc, columns, SUM, sums.as_slice(), &mut names)?;
        }
    }
    Ok(names)
}

// Adds the names of some columns, with a prefix before each.
fn add_names(
    alloc: Global,
    columns: &[Column],
    prefix: &str,
    picks: &[u32],
    names: &mut Vec<Text>,
) -> Result<(), AllocError>
    ensures names { OnOk result (names.new.items ≡ names.old.items ++ map (λ pick. prefix.now ++ name_at columns.now pick) picks.now) }
{
    'picks: for pick in picks {
        let name = name_at(columns, *pick);
        let text = format!(in alloc; "{prefix}{name}")?;
        names.push(Text::new(alloc, &text)?)?;
    }
    Ok(())
}

// The name of a column, and none past the last one.
fn name_at(columns: &[Column], place: u32) -> &str
    ensures value { result.now ≡ name_at columns.now place }
{
    match columns.get(place as usize) {
        Some(column) => column.name.as_str(),
        None => "",
    }
}

// The names of a query's allocators.
fn names(alloc: Global) -> Result<Names, NoMemory>
    ensures value { IfOk result (λ names. names.bindings ≡ query_names) }
{
    let mut names = Names::new(alloc);
    bind(&mut names, "scan", AllocId(1))?;
    bind(&mut names, "filter", AllocId(2))?;
    bind(&mut names, "project", AllocId(3))?;
    bind(&mut names, "sums", AllocId(4))?;
    bind(&mut names, "result", AllocId(5))?;
    Ok(names)
}

// Binds a name that is free.
fn bind(names: &mut Names, name: &str, at: AllocId) -> Result<(), NoMemory>
    requires named { is_name name.now ≡ true }
    requires free { is_bound names.old.bindings name.now ≡ false }
    ensures bound { OnOk result (names.new.bindings ≡ names.old.bindings ++ (name.now, at) ∷ []) }
{
    match names.ready(name) {
        Ok(ready) => {
            names.bind(ready, at);
            Ok(())
        }
        Err(_) => Err(NoMemory),
    }
}

#[cfg(test)]
mod tests;
