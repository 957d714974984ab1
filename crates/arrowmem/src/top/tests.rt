//! Runs over files and an output in memory, with their status and their text written out.
use super::arrowmem;
use gate::OpenGate;
use mem_io::{MemShelf, MemSink};
use std::alloc::{AllocError, Global};
use std::test::Fail;

fn shelf(alloc: Global, files: &[(&str, &[u8])], failing: &[u64]) -> Result<MemShelf, AllocError> {
    let mut owned = Vec::new(alloc);
    for (name, bytes) in files {
        let name = String::from_str(alloc, name)?;
        owned.push((name, Vec::from_slice(alloc, bytes)?))?;
    }
    Ok(MemShelf {
        files: owned,
        failing: Vec::from_slice(alloc, failing)?,
        calls: 0,
        failed: 0,
    })
}

fn sink(alloc: Global, bytes: &[u8], failing: &[u64]) -> Result<MemSink, AllocError> {
    Ok(MemSink {
        bytes: Vec::from_slice(alloc, bytes)?,
        failing: Vec::from_slice(alloc, failing)?,
        calls: 0,
        failed: 0,
    })
}

// Runs the words, and gives the status.
fn run(
    alloc: Global,
    words: &[&str],
    shelf: &mut MemShelf,
    out: &mut MemSink,
) -> Result<u8, AllocError> {
    let mut owned = Vec::new(alloc);
    for word in words {
        owned.push(String::from_str(alloc, word)?)?;
    }
    Ok(arrowmem(alloc, &owned, shelf, out, &OpenGate))
}

// The status of a trace of this script, and what it prints.
fn trace(alloc: Global, script: &[u8]) -> Result<(u8, String), Fail> {
    let mut shelf = shelf(alloc, &[("s", script)], &[])?;
    let mut out = sink(alloc, b"", &[])?;
    let status = run(alloc, &["trace", "s"], &mut shelf, &mut out)?;
    Ok((status, String::from_utf8(out.bytes)?))
}

#[test]
fn a_run_with_memory_prints_its_answer(rt: HostRuntime) -> Result<(), Fail> {
    for (script, want) in [
        (
            "tree",
            "#0 Allocator(ROOT) 0/0/0/9223372036854775807 (res/actual/peak/limit)\n",
        ),
        ("", ""),
        (
            "root 1024\nbuffer a ROOT 1024\nbuffer b ROOT 2\ntree\n",
            "buffer a chunk 1 size 1024\n\
             full #0 held 1024 amount 2 limit 1024 local\n\
             #0 Allocator(ROOT) 0/1024/1024/1024 (res/actual/peak/limit)\n",
        ),
    ] {
        let (status, text) = trace(rt.alloc(), script.as_bytes())?;
        assert_eq!(rt; status, 0, "at {script:?}");
        assert_eq!(rt; text.as_str(), want, "at {script:?}");
    }
    Ok(())
}

#[test]
fn a_request_is_rounded_up_to_a_power_of_two_below_16_mib(rt: HostRuntime) -> Result<(), Fail> {
    let script = "buffer one ROOT 1\nbuffer two ROOT 2\nbuffer three ROOT 3\n\
                  buffer below ROOT 16777215\nbuffer at ROOT 16777216\nbuffer above ROOT 16777217\n\
                  tree\n";
    let want = "buffer one chunk 1 size 2\nbuffer two chunk 2 size 2\nbuffer three chunk 3 size 4\n\
                buffer below chunk 4 size 16777216\nbuffer at chunk 5 size 16777216\n\
                buffer above chunk 6 size 16777217\n\
                #0 Allocator(ROOT) 0/50331657/50331657/9223372036854775807 (res/actual/peak/limit)\n";
    let (status, text) = trace(rt.alloc(), script.as_bytes())?;
    assert_eq!(rt; status, 0);
    assert_eq!(rt; text.as_str(), want);
    Ok(())
}

#[test]
fn a_refused_request_tells_why_and_only_a_full_one_spends_a_chunk_number(
    rt: HostRuntime,
) -> Result<(), Fail> {
    for (script, want) in [
        (
            "buffer a ROOT 1073741825\nbuffer a ROOT 1073741824\n",
            "toolarge 1073741825\nbuffer a chunk 1 size 1073741824\n",
        ),
        (
            "buffer a ROOT 0001073741825\n\
             buffer a ROOT 9223372036854775807\n",
            "toolarge 1073741825\ntoolarge 9223372036854775807\n",
        ),
        (
            "root 6\nbuffer a ROOT 4\nbuffer b ROOT 4\nbuffer c ROOT 2\n",
            "buffer a chunk 1 size 4\nfull #0 held 4 amount 4 limit 6 local\nbuffer c chunk 3 size 2\n",
        ),
        (
            "root 3\nbuffer a ROOT 3\nbuffer a ROOT 2\n",
            "full #0 held 0 amount 4 limit 3 local\nbuffer a chunk 2 size 2\n",
        ),
        (
            "root 0\nbuffer a ROOT 0\nbuffer b ROOT 1\n",
            "buffer a empty\nfull #0 held 0 amount 2 limit 0 local\n",
        ),
        (
            "buffer a ROOT 0\nbuffer b ROOT 1\n",
            "buffer a empty\nbuffer b chunk 1 size 2\n",
        ),
    ] {
        let (status, text) = trace(rt.alloc(), script.as_bytes())?;
        assert_eq!(rt; status, 0, "at {script:?}");
        assert_eq!(rt; text.as_str(), want, "at {script:?}");
    }
    Ok(())
}

#[test]
fn a_new_name_is_tested_before_the_name_of_the_allocator(rt: HostRuntime) -> Result<(), Fail> {
    for (script, want) in [
        (
            "buffer e ROOT 0\nbuffer e ROOT 8\n",
            "buffer e empty\ntaken e\n",
        ),
        (
            "buffer a ROOT 8\nbuffer a ROOT 0\nbuffer a c 8\nbuffer b c 8\n",
            "buffer a chunk 1 size 8\ntaken a\ntaken a\nunknown c\n",
        ),
        (
            "buffer a c 8\nbuffer a a 8\nbuffer a root 8\nbuffer a ROOT 8\n",
            "unknown c\nunknown a\nunknown root\nbuffer a chunk 1 size 8\n",
        ),
        (
            "buffer ROOT ROOT 8\nbuffer A ROOT 8\nbuffer a ROOT 8\n",
            "buffer ROOT chunk 1 size 8\nbuffer A chunk 2 size 8\nbuffer a chunk 3 size 8\n",
        ),
    ] {
        let (status, text) = trace(rt.alloc(), script.as_bytes())?;
        assert_eq!(rt; status, 0, "at {script:?}");
        assert_eq!(rt; text.as_str(), want, "at {script:?}");
    }
    Ok(())
}

#[test]
fn comments_and_blank_lines_print_nothing(rt: HostRuntime) -> Result<(), Fail> {
    let script = b"# a limit \xff\r\n\r\n \t\r\nroot 8\r\n#tree\nbuffer a\tROOT  8\r\ntree";
    let want = "buffer a chunk 1 size 8\n#0 Allocator(ROOT) 0/8/8/8 (res/actual/peak/limit)\n";
    let (status, text) = trace(rt.alloc(), script)?;
    assert_eq!(rt; status, 0);
    assert_eq!(rt; text.as_str(), want);
    Ok(())
}

#[test]
fn words_without_a_reading_ask_for_no_file(rt: HostRuntime) -> Result<(), Fail> {
    let want = "usage: arrowmem trace FILE | drive FILE | query PLAN DATA [--workers N] \
                | gen SEED ROWS WORKERS\n";
    let cases: [&[&str]; 12] = [
        &[],
        &["trace"],
        &["s"],
        &["trace", "s", "s"],
        &["traces", "s"],
        &["Trace", "s"],
        &["", "s"],
        &["trace", "-x"],
        &["trace", "-"],
        &["trace", ""],
        &["--help"],
        &["--", "trace", "s"],
    ];
    for words in cases {
        let mut shelf = shelf(rt.alloc(), &[("s", b"tree")], &[])?;
        let mut out = sink(rt.alloc(), b"", &[])?;
        assert_eq!(rt;
            run(rt.alloc(), words, &mut shelf, &mut out)?,
            2,
            "at {words:?}"
        );
        assert_eq!(rt; out.bytes.as_slice(), want.as_bytes(), "at {words:?}");
        assert_eq!(rt; shelf.calls, 0, "at {words:?}");
    }
    Ok(())
}

#[test]
fn a_fault_is_told_with_the_name_of_the_file_and_nothing_else(rt: HostRuntime) -> Result<(), Fail> {
    for (file, failing, want, text) in [
        ("gone", [].as_slice(), 5, "read fault: gone\n"),
        ("fine", [1].as_slice(), 5, "read fault: fine\n"),
        ("fine", [2].as_slice(), 0, "buffer a chunk 1 size 8\n"),
        ("typo", [].as_slice(), 3, "input: typo line 3\n"),
        ("typo", [1].as_slice(), 5, "read fault: typo\n"),
    ] {
        let files = [
            ("fine", b"buffer a ROOT 8\n".as_slice()),
            ("typo", b"root 64\nbuffer a ROOT 8\nbufer a ROOT 1\ntree\n"),
        ];
        let mut shelf = shelf(rt.alloc(), &files, failing)?;
        let mut out = sink(rt.alloc(), b"", &[])?;
        let status = run(rt.alloc(), &["trace", file], &mut shelf, &mut out)?;
        assert_eq!(rt; status, want, "{file} with {failing:?}");
        assert_eq!(rt;
            out.bytes.as_slice(),
            text.as_bytes(),
            "{file} with {failing:?}"
        );
        assert_eq!(rt; shelf.calls, 1, "{file} with {failing:?}");
    }
    Ok(())
}

#[test]
fn a_file_has_at_most_64_mib(rt: HostRuntime) -> Result<(), Fail> {
    let mut comment = Vec::new(rt.alloc());
    for (length, want, line) in [(67_108_864, 0, ""), (67_108_865, 7, "too long: s\n")] {
        comment.resize(length, b'#')?;
        let (status, text) = trace(rt.alloc(), &comment)?;
        assert_eq!(rt; status, want, "at {length}");
        assert_eq!(rt; text.as_str(), line, "at {length}");
    }
    Ok(())
}

#[test]
fn an_output_is_written_by_one_call_behind_what_was_there(rt: HostRuntime) -> Result<(), Fail> {
    for (words, failing, want, text) in [
        (
            ["trace", "s"].as_slice(),
            [].as_slice(),
            0,
            "old\nbuffer a empty\nbuffer b empty\n",
        ),
        (["trace", "s"].as_slice(), [1].as_slice(), 6, "old\n"),
        (["trace", "gone"].as_slice(), [1].as_slice(), 6, "old\n"),
        (["trace"].as_slice(), [1].as_slice(), 6, "old\n"),
        (["query", "p", "s"].as_slice(), [1].as_slice(), 6, "old\n"),
        (
            ["trace", "gone"].as_slice(),
            [2].as_slice(),
            5,
            "old\nread fault: gone\n",
        ),
    ] {
        let script = b"buffer a ROOT 0\nbuffer b ROOT 0\n".as_slice();
        let files = [("s", script), ("p", PLAN.as_bytes())];
        let mut shelf = shelf(rt.alloc(), &files, &[])?;
        let mut out = sink(rt.alloc(), b"old\n", failing)?;
        let status = run(rt.alloc(), words, &mut shelf, &mut out)?;
        assert_eq!(rt; status, want, "{words:?} with {failing:?}");
        assert_eq!(rt;
            out.bytes.as_slice(),
            text.as_bytes(),
            "{words:?} with {failing:?}"
        );
        assert_eq!(rt; out.calls, 1, "{words:?} with {failing:?}");
    }
    Ok(())
}

const PLAN: &str =
    "columns = [\"city:text\", \"mm:int\"]\nbatch = 2\ngroup = \"city\"\nsums = [\"mm\"]\n";

const TABLE: &[u8] = b"city,mm\noslo,3\nbergen,\noslo,-1\nbergen,7\noslo,2\n";

// What the query prints up to the root's limit, and from its children on.
const ANSWER: &str = "city,sum_mm\nbergen,7\noslo,4\n#0 Allocator(ROOT) 0/66/228/";

const CHILDREN: &str = " (res/actual/peak/limit)\n  \
    #1 Allocator(scan) 0/0/50/9223372036854775807 (res/actual/peak/limit)\n  \
    #2 Allocator(filter) 0/0/50/9223372036854775807 (res/actual/peak/limit)\n  \
    #3 Allocator(project) 0/0/0/9223372036854775807 (res/actual/peak/limit)\n  \
    #4 Allocator(sums) 0/0/162/9223372036854775807 (res/actual/peak/limit)\n  \
    #5 Allocator(result) 0/66/66/9223372036854775807 (res/actual/peak/limit)\n\
    chunk 37 size 16 owner #5 refs #5:1\n\
    chunk 38 size 16 owner #5 refs #5:1\n\
    chunk 39 size 2 owner #5 refs #5:1\n\
    chunk 40 size 32 owner #5 refs #5:1\n\
    refs 4\n\
    closed 6\n";

// The status of the words over a plan `p` and a table `d.csv`, what they print, and how often the shelf is asked.
fn query(
    alloc: Global,
    words: &[&str],
    plan: &str,
    table: &[u8],
    failing: &[u64],
) -> Result<(u8, String, u64), Fail> {
    let files = [("p", plan.as_bytes()), ("d.csv", table)];
    let mut shelf = shelf(alloc, &files, failing)?;
    let mut out = sink(alloc, b"", &[])?;
    let status = run(alloc, words, &mut shelf, &mut out)?;
    Ok((status, String::from_utf8(out.bytes)?, shelf.calls))
}

#[test]
fn a_query_prints_its_answer_its_report_and_its_end(rt: HostRuntime) -> Result<(), Fail> {
    let calls: [&[&str]; 4] = [
        &["query", "p", "d.csv"],
        &["query", "--workers", "1", "p", "d.csv"],
        &["query", "p", "--workers", "1", "d.csv"],
        &["query", "p", "d.csv", "--workers", "1"],
    ];
    let want = format!(in rt.alloc(); "{ANSWER}9223372036854775807{CHILDREN}")?;
    for words in calls {
        let (status, text, asked) = query(rt.alloc(), words, PLAN, TABLE, &[])?;
        assert_eq!(rt; status, 0, "at {words:?}");
        assert_eq!(rt; text.as_str(), want.as_str(), "at {words:?}");
        assert_eq!(rt; asked, 2, "at {words:?}");
    }
    Ok(())
}

#[test]
fn a_limit_that_is_passed_is_told_with_its_batch(rt: HostRuntime) -> Result<(), Fail> {
    let fits = format!(in rt.alloc(); "{ANSWER}228{CHILDREN}")?;
    for (limit, status, want) in [
        (
            "filter = 8",
            4,
            "full: #2 held 0 amount 16 limit 8 batch 1\n",
        ),
        ("root = 228", 0, fits.as_str()),
        (
            "root = 227",
            4,
            "full: #0 held 196 amount 32 limit 227 batch 0\n",
        ),
    ] {
        let plan = format!(in rt.alloc(); "{PLAN}[limits]\n{limit}\n")?;
        let words = ["query", "p", "d.csv"];
        let (ended, text, asked) = query(rt.alloc(), &words, plan.as_str(), TABLE, &[])?;
        assert_eq!(rt; ended, status, "at {limit}");
        assert_eq!(rt; text.as_str(), want, "at {limit}");
        assert_eq!(rt; asked, 2, "at {limit}");
    }
    Ok(())
}

#[test]
fn a_bad_row_is_told_by_its_number_and_the_header_is_row_0(rt: HostRuntime) -> Result<(), Fail> {
    for (table, want) in [
        (
            b"city,mm\noslo,3\nbergen,\noslo,-1\nbergen,x7\noslo,2\n".as_slice(),
            "input: d.csv row 4\n",
        ),
        (
            b"city,mm\noslo,3\n\"bergen,7\noslo,2\n",
            "input: d.csv row 2\n",
        ),
        (b"city,sum\noslo,3\n", "input: d.csv row 0\n"),
        (b"", "input: d.csv row 0\n"),
    ] {
        let words = ["query", "p", "d.csv"];
        let (status, text, asked) = query(rt.alloc(), &words, PLAN, table, &[])?;
        assert_eq!(rt; status, 3, "at {want}");
        assert_eq!(rt; text.as_str(), want);
        assert_eq!(rt; asked, 2, "at {want}");
    }
    Ok(())
}

#[test]
fn the_table_is_asked_for_only_where_the_plan_has_a_reading(rt: HostRuntime) -> Result<(), Fail> {
    for (plan, words, failing, want, line, calls) in [
        (
            "batch = 2\n",
            ["query", "p", "d.csv"],
            [].as_slice(),
            3,
            "input: p\n",
            1,
        ),
        (
            "",
            ["query", "p", "gone"],
            [].as_slice(),
            3,
            "input: p\n",
            1,
        ),
        (
            PLAN,
            ["query", "gone", "d.csv"],
            [].as_slice(),
            5,
            "read fault: gone\n",
            1,
        ),
        (
            PLAN,
            ["query", "p", "gone"],
            [].as_slice(),
            5,
            "read fault: gone\n",
            2,
        ),
        (
            PLAN,
            ["query", "p", "d.csv"],
            [1].as_slice(),
            5,
            "read fault: p\n",
            1,
        ),
        (
            PLAN,
            ["query", "p", "d.csv"],
            [2].as_slice(),
            5,
            "read fault: d.csv\n",
            2,
        ),
    ] {
        let (status, text, asked) = query(rt.alloc(), &words, plan, TABLE, failing)?;
        assert_eq!(rt; status, want, "{words:?} with {failing:?}");
        assert_eq!(rt; text.as_str(), line, "{words:?} with {failing:?}");
        assert_eq!(rt; asked, calls, "{words:?} with {failing:?}");
    }
    Ok(())
}

#[test]
fn a_query_has_two_files_and_one_worker_at_most_once(rt: HostRuntime) -> Result<(), Fail> {
    let cases: [&[&str]; 13] = [
        &["query"],
        &["query", "p"],
        &["query", "p", "d.csv", "x"],
        &["query", "p", "d.csv", "--workers"],
        &["query", "p", "d.csv", "--workers", "2"],
        &["query", "p", "d.csv", "--workers", "01"],
        &["query", "p", "d.csv", "--workers=1"],
        &["query", "p", "d.csv", "--workers", "1", "--workers", "1"],
        &["query", "--workers", "1", "--workers", "1"],
        &["query", "-p", "d.csv"],
        &["query", "p", "-"],
        &["query", "p", ""],
        &["--workers", "1", "query", "p", "d.csv"],
    ];
    for words in cases {
        let (status, text, asked) = query(rt.alloc(), words, PLAN, TABLE, &[])?;
        assert_eq!(rt; status, 2, "at {words:?}");
        assert!(rt;
            text.as_str().starts_with("usage: arrowmem "),
            "at {words:?}"
        );
        assert_eq!(rt; asked, 0, "at {words:?}");
    }
    Ok(())
}
