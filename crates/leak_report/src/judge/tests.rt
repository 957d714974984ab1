//! Worked texts, and which of them are lawful reports.

use super::*;
use std::alloc::AllocGlobal;
use std::test::Fail;

/// What each of some texts is judged.
fn judged_all(rt: &impl AllocGlobal, texts: &[&str]) -> Result<Vec<bool>, Fail> {
    let mut answers = Vec::new(rt.alloc());
    for text in texts {
        answers.push(is_lawful_report(rt.alloc(), text.as_bytes())?)?;
    }
    Ok(answers)
}

#[test]
fn worked_reports_are_lawful(rt: HostRuntime) -> Result<(), Fail> {
    let answers = judged_all(
        &rt,
        &[
            // A closed tree.
            "refs 0
",
            "#0 Allocator(ROOT) 0/0/0/4096 (res/actual/peak/limit)
refs 0
",
            "#0 Allocator(ROOT) 0/1024/2048/4096 (res/actual/peak/limit)
  #1 Allocator(?) 0/0/1024/4096 (res/actual/peak/limit)
  #2 Allocator(?) 0/1024/1024/4096 (res/actual/peak/limit)
chunk 1 size 1024 owner #2 refs #1:1 #2:1
refs 2
",
            // A greater number comes before a smaller one: #3 is a child of #1.
            "#0 Allocator(ROOT) 0/1216/1216/4096 (res/actual/peak/limit)
  #1 Allocator(scan) 0/192/192/4096 (res/actual/peak/limit)
    #3 Allocator(part-1.a_B) 64/16/16/4096 (res/actual/peak/limit)
  #2 Allocator(?) 0/0/0/18446744073709551615 (res/actual/peak/limit)
chunk 1 size 128 owner #1 refs #1:3 #2:1
chunk 2 size 1024 owner #0 refs #0:1 #1:1
chunk 4294967295 size 16 owner #3 refs #3:18446744073709551615
refs 18446744073709551621
",
        ],
    )?;
    assert_eq!(rt; answers.as_slice(), [true; 4].as_slice());
    Ok(())
}

#[test]
fn forged_texts_are_not_lawful(rt: HostRuntime) -> Result<(), Fail> {
    let answers = judged_all(
        &rt,
        &[
            // One allocator whose name would hold a line feed.
            "#0 Allocator(ROOT) 0/999/999/10 (res/actual/peak/limit)
  #1 Allocator(c) 0/0/0/10 (res/actual/peak/limit)
refs 0
",
            "#0 Allocator(ROOT) 0/0/0/10 (res/actual/peak/limit)
chunk 0 size 0 owner #0 refs #0:1
refs 1
",
            "#0 Allocator(ROOT) 0/1099511627776/1099511627776/10 (res/actual/peak/limit)
chunk 1 size 1099511627776 owner #0 refs #0:1
refs 1
",
            "",
            "#0 Allocator(ROOT) 0/0/0/10 (res/actual/peak/limit)
refs 0",
            "#0 Allocator(ROOT) 0/0/0/10 (res/actual/peak/limit)
refs 0

",
            "#0 Allocator(ROOT) 0/00/0/10 (res/actual/peak/limit)
refs 0
",
            "#0 Allocator(ROOT) 0/0/0/18446744073709551616 (res/actual/peak/limit)
refs 0
",
            "#0 Allocator(a name) 0/0/0/10 (res/actual/peak/limit)
refs 0
",
            "#0 Allocator(a-name-of-more-than-thirty-two-bytes) 0/0/0/10 (res/actual/peak/limit)
refs 0
",
            "#0 Allocator() 0/0/0/10 (res/actual/peak/limit)
refs 0
",
        ],
    )?;
    assert_eq!(rt; answers.as_slice(), [false; 11].as_slice());
    Ok(())
}

// A report of two allocators and two chunks, with these lines for the second allocator and the chunks.
fn with_lines(rt: &impl AllocGlobal, held: u64, child: &str, chunks: &str) -> Result<bool, Fail> {
    let text = format!(in rt.alloc();
        "#0 Allocator(ROOT) 0/{held}/2048/4096 (res/actual/peak/limit)\n{child}\n{chunks}\n"
    )?;
    Ok(is_lawful_report(rt.alloc(), text.as_bytes())?)
}

#[test]
fn one_number_turned_makes_a_report_unlawful(rt: HostRuntime) -> Result<(), Fail> {
    let child = "  #2 Allocator(b) 64/128/128/4096 (res/actual/peak/limit)";
    let chunks =
        "chunk 1 size 1024 owner #0 refs #0:1 #2:2\nchunk 3 size 128 owner #2 refs #2:1\nrefs 4";
    assert!(rt; with_lines(&rt, 1_152, child, chunks)?);
    // The root holds another number of bytes.
    assert!(rt; !with_lines(&rt, 1_153, child, chunks)?);
    for turned in [
        // The child's held, depth, number, or parent.
        "  #2 Allocator(b) 64/127/128/4096 (res/actual/peak/limit)",
        "    #2 Allocator(b) 64/128/128/4096 (res/actual/peak/limit)",
        "#2 Allocator(b) 64/128/128/4096 (res/actual/peak/limit)",
        "  #0 Allocator(b) 64/128/128/4096 (res/actual/peak/limit)",
        "  #3 Allocator(b) 64/128/128/4096 (res/actual/peak/limit)",
        // A reservation that counts for more.
        "  #2 Allocator(b) 129/128/128/4096 (res/actual/peak/limit)",
        // No child.
        "",
    ] {
        assert!(rt; !with_lines(&rt, 1_152, turned, chunks)?);
    }
    for turned in [
        // The first chunk's owner, count, number and size.
        "chunk 1 size 1024 owner #2 refs #0:1 #2:2\nchunk 3 size 128 owner #2 refs #2:1\nrefs 4",
        "chunk 1 size 1024 owner #0 refs #0:1 #2:1\nchunk 3 size 128 owner #2 refs #2:1\nrefs 4",
        "chunk 3 size 1024 owner #0 refs #0:1 #2:2\nchunk 3 size 128 owner #2 refs #2:1\nrefs 4",
        "chunk 1 size 0 owner #0 refs #0:1 #2:2\nchunk 3 size 128 owner #2 refs #2:1\nrefs 4",
        // An owner without a count; a count of 0; ledgers out of order; a ledger of an allocator that isn't printed.
        "chunk 1 size 1024 owner #0 refs #2:3\nchunk 3 size 128 owner #2 refs #2:1\nrefs 4",
        "chunk 1 size 1024 owner #0 refs #0:3 #2:0\nchunk 3 size 128 owner #2 refs #2:1\nrefs 4",
        "chunk 1 size 1024 owner #0 refs #2:2 #0:1\nchunk 3 size 128 owner #2 refs #2:1\nrefs 4",
        "chunk 1 size 1024 owner #0 refs #0:1 #1:2\nchunk 3 size 128 owner #2 refs #2:1\nrefs 4",
        // The chunks out of order; another number of references.
        "chunk 3 size 128 owner #2 refs #2:1\nchunk 1 size 1024 owner #0 refs #0:1 #2:2\nrefs 4",
        "chunk 1 size 1024 owner #0 refs #0:1 #2:2\nchunk 3 size 128 owner #2 refs #2:1\nrefs 5",
    ] {
        assert!(rt; !with_lines(&rt, 1_152, child, turned)?);
    }
    Ok(())
}
