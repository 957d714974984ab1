//! Traces with the whole output written out.
use super::*;
use mem_model::{Charge, TreeNode, fits, held_of, is_allocator_tree};
use mem_num::AllocId;
use std::process::Abort;
use std::test::Fail;

mod references;

// What a trace prints, or why it wasn't run.
fn printed(alloc: Global, script: &str) -> Result<String, Fail> {
    let mut out = Vec::new(alloc);
    match run_trace(alloc, script.as_bytes(), &mut out) {
        Ok(()) => Ok(String::from_utf8(out)?),
        Err(refused) => Ok(format!(in alloc; "{refused:?}")?),
    }
}

#[test]
fn a_trace_stands_behind_what_was_there_or_is_left_out_whole(rt: HostRuntime) -> Result<(), Fail> {
    let mut out = Vec::from_slice(rt.alloc(), b"old\n")?;
    for (script, want, text) in [
        ("buffer a ROOT 0\n", "Ok(())", "old\nbuffer a empty\n"),
        (
            "buffer b ROOT 0\nbufer c ROOT 0\n",
            "Err(Bad { line: 2 })",
            "old\nbuffer a empty\n",
        ),
        (
            "buffer a ROOT 3\n",
            "Ok(())",
            "old\nbuffer a empty\nbuffer a chunk 1 size 4\n",
        ),
    ] {
        let result = run_trace(rt.alloc(), script.as_bytes(), &mut out);
        let said = format!(in rt.alloc(); "{result:?}")?;
        assert_eq!(rt; said.as_str(), want, "at {script:?}");
        assert_eq!(rt; out.as_slice(), text.as_bytes(), "at {script:?}");
    }
    Ok(())
}

#[test]
fn each_line_is_answered_as_the_worked_examples_say(rt: HostRuntime) -> Result<(), Fail> {
    for (script, want) in [
        (
            "buffer e ROOT 0\nbuffer a ROOT 1\nrelease e\ntree\n",
            "buffer e empty\n\
             buffer a chunk 1 size 2\n\
             release e empty\n\
             #0 Allocator(ROOT) 0/2/2/9223372036854775807 (res/actual/peak/limit)\n",
        ),
        (
            "child c ROOT 4096 9223372036854775807\nbuffer a c 2048\ntree\nbuffer b c 4096\ntree\n",
            "child c is #1\n\
             buffer a chunk 1 size 2048\n\
             #0 Allocator(ROOT) 0/4096/4096/9223372036854775807 (res/actual/peak/limit)\n\
             \x20 #1 Allocator(c) 4096/2048/2048/9223372036854775807 (res/actual/peak/limit)\n\
             buffer b chunk 2 size 4096\n\
             #0 Allocator(ROOT) 0/6144/6144/9223372036854775807 (res/actual/peak/limit)\n\
             \x20 #1 Allocator(c) 4096/6144/6144/9223372036854775807 (res/actual/peak/limit)\n",
        ),
        (
            "root 1024\nchild c ROOT 0 9223372036854775807\nbuffer a c 1024\nbuffer b c 512\ntree\n",
            "child c is #1\n\
             buffer a chunk 1 size 1024\n\
             full #0 held 1024 amount 512 limit 1024 parent\n\
             #0 Allocator(ROOT) 0/1024/1024/1024 (res/actual/peak/limit)\n\
             \x20 #1 Allocator(c) 0/1024/1536/9223372036854775807 (res/actual/peak/limit)\n",
        ),
        (
            "child c ROOT 0 1024\nbuffer a c 1024\nbuffer b c 512\ntree\nbuffer d ROOT 2\n",
            "child c is #1\n\
             buffer a chunk 1 size 1024\n\
             full #1 held 1024 amount 512 limit 1024 local\n\
             #0 Allocator(ROOT) 0/1024/1024/9223372036854775807 (res/actual/peak/limit)\n\
             \x20 #1 Allocator(c) 0/1024/1024/1024 (res/actual/peak/limit)\n\
             buffer d chunk 3 size 2\n",
        ),
        (
            "root 1024\nchild c ROOT 512 2048\nbuffer a c 256\nheadroom c\nheadroom ROOT\n",
            "child c is #1\n\
             buffer a chunk 1 size 256\n\
             headroom c 768\n\
             headroom ROOT 512\n",
        ),
        (
            "child c ROOT 4096 8192\nclose c\ntree\nclose ROOT\ntree\nclose ROOT\n",
            "child c is #1\n\
             close c ok\n\
             #0 Allocator(ROOT) 0/0/4096/9223372036854775807 (res/actual/peak/limit)\n\
             close ROOT ok\n\
             closed #0\n",
        ),
        (
            "root 1000\nchild c ROOT 2000 3000\nchild d ROOT 10 5\nchild c ROOT 0 5\nchild c ROOT 0 5\n",
            "full #0 held 0 amount 2000 limit 1000 local\n\
             above 10 5\n\
             child c is #2\n\
             taken c\n",
        ),
    ] {
        let text = printed(rt.alloc(), script)?;
        assert_eq!(rt; text.as_str(), want, "at {script:?}");
    }
    Ok(())
}

#[test]
fn a_buffer_is_given_back_once_and_an_empty_one_any_number_of_times(
    rt: HostRuntime,
) -> Result<(), Fail> {
    for (script, want) in [
        (
            "buffer a ROOT 8\nrelease a\nrelease a\nbuffer a ROOT 8\nbuffer b ROOT 8\nrelease a\nrelease b\ntree\n",
            "buffer a chunk 1 size 8\n\
             release a gone\n\
             released chunk 1 at #0\n\
             taken a\n\
             buffer b chunk 2 size 8\n\
             released chunk 1 at #0\n\
             release b gone\n\
             #0 Allocator(ROOT) 0/0/8/9223372036854775807 (res/actual/peak/limit)\n",
        ),
        (
            "buffer e ROOT 0\nrelease e\nrelease e\nrelease f\nbuffer e ROOT 0\n",
            "buffer e empty\nrelease e empty\nrelease e empty\nunknown f\ntaken e\n",
        ),
        (
            "child c ROOT 64 64\nbuffer a c 0\nbuffer b c 64\nrelease b\nclose c\nrelease a\nrelease b\n",
            "child c is #1\n\
             buffer a empty\n\
             buffer b chunk 1 size 64\n\
             release b gone\n\
             close c ok\n\
             release a empty\n\
             released chunk 1 at #1\n",
        ),
    ] {
        let text = printed(rt.alloc(), script)?;
        assert_eq!(rt; text.as_str(), want, "at {script:?}");
    }
    Ok(())
}

#[test]
fn names_of_allocators_and_names_of_buffers_are_two_spaces(rt: HostRuntime) -> Result<(), Fail> {
    let script = "buffer c ROOT 8\nchild c ROOT 0 64\nbuffer ROOT c 8\nchild ROOT c 0 64\n\
                  close ROOT\nrelease ROOT\nheadroom c\nrelease c\nclose a\nrelease a\nheadroom a\n";
    let want = "buffer c chunk 1 size 8\n\
                child c is #1\n\
                buffer ROOT chunk 2 size 8\n\
                taken ROOT\n\
                inuse 2\n\
                release ROOT gone\n\
                headroom c 64\n\
                release c gone\n\
                unknown a\n\
                unknown a\n\
                unknown a\n";
    let text = printed(rt.alloc(), script)?;
    assert_eq!(rt; text.as_str(), want);
    Ok(())
}

#[test]
fn a_new_name_is_tested_before_the_names_that_are_mentioned(rt: HostRuntime) -> Result<(), Fail> {
    let script =
        "child a b 2 1\nchild a ROOT 2 1\nchild a ROOT 0 1\nchild a b 2 1\nbuffer x b 4\nbuffer x a 4\n\
                  buffer x a 1\nbuffer x ROOT 1\nbuffer x b 1\n";
    let want = "unknown b\n\
                above 2 1\n\
                child a is #1\n\
                taken a\n\
                unknown b\n\
                full #1 held 0 amount 4 limit 1 local\n\
                full #1 held 0 amount 2 limit 1 local\n\
                buffer x chunk 3 size 2\n\
                taken x\n";
    let text = printed(rt.alloc(), script)?;
    assert_eq!(rt; text.as_str(), want);
    Ok(())
}

#[test]
fn a_name_stays_bound_after_its_allocator_is_closed(rt: HostRuntime) -> Result<(), Fail> {
    let script =
        "child a ROOT 8 64\nbuffer x a 16\nclose a\nrelease x\nclose a\nchild a ROOT 0 64\nchild b a 0 64\n\
                  buffer y a 8\nheadroom a\nclose a\nchild b ROOT 0 64\ntree\n";
    let want = "child a is #1\n\
                buffer x chunk 1 size 16\n\
                inuse 1\n\
                release x gone\n\
                close a ok\n\
                taken a\n\
                closed #1\n\
                closed #1\n\
                closed #1\n\
                closed #1\n\
                child b is #2\n\
                #0 Allocator(ROOT) 0/0/16/9223372036854775807 (res/actual/peak/limit)\n\
                \x20 #2 Allocator(b) 0/0/0/64 (res/actual/peak/limit)\n";
    let text = printed(rt.alloc(), script)?;
    assert_eq!(rt; text.as_str(), want);
    Ok(())
}

#[test]
fn a_child_stands_behind_its_parent_and_deeper(rt: HostRuntime) -> Result<(), Fail> {
    let script =
        "child a ROOT 0 64\nchild b ROOT 0 64\nchild aa a 8 64\nchild ab a 0 64\nchild aaa aa 4 64\n\
                  buffer x aaa 16\nclose a\nclose b\ntree\n";
    let want = "child a is #1\n\
                child b is #2\n\
                child aa is #3\n\
                child ab is #4\n\
                child aaa is #5\n\
                buffer x chunk 1 size 16\n\
                inuse 2\n\
                close b ok\n\
                #0 Allocator(ROOT) 0/16/16/9223372036854775807 (res/actual/peak/limit)\n\
                \x20 #1 Allocator(a) 0/16/16/64 (res/actual/peak/limit)\n\
                \x20   #3 Allocator(aa) 8/16/16/64 (res/actual/peak/limit)\n\
                \x20     #5 Allocator(aaa) 4/16/16/64 (res/actual/peak/limit)\n\
                \x20   #4 Allocator(ab) 0/0/0/64 (res/actual/peak/limit)\n";
    let text = printed(rt.alloc(), script)?;
    assert_eq!(rt; text.as_str(), want);
    Ok(())
}

#[test]
fn a_tree_has_63_children_in_its_life(rt: HostRuntime) -> Result<(), Fail> {
    let mut script = String::new(rt.alloc());
    let mut want = String::new(rt.alloc());
    for i in 1..64 {
        write!(script, "child c{i} ROOT 0 64\n")?;
        write!(want, "child c{i} is #{i}\n")?;
    }
    script.push_str("child c64 ROOT 0 64\nclose c1\nchild c64 ROOT 0 64\nheadroom c64\n")?;
    want.push_str("nodes 64\nclose c1 ok\nnodes 65\nunknown c64\n")?;
    let text = printed(rt.alloc(), script.as_str())?;
    assert_eq!(rt; text.as_str(), want.as_str());
    Ok(())
}

fn node(number: u32, parent: Option<AllocId>, reservation: u64, limit: u64) -> TreeNode {
    TreeNode {
        number: AllocId(number),
        parent,
        reservation,
        limit,
        closed: false,
    }
}

// What the definition of held gives, by a tree and its charges.
fn held_at(rt: &impl Abort, nodes: &[TreeNode], charges: &[Charge], at: AllocId) -> u64 {
    assert!(rt; is_allocator_tree(nodes) && fits(nodes, charges));
    held_of(nodes, charges, at)
}

// The line of an allocator as many levels deep as its number says, which holds its peak.
fn level_line(
    alloc: Global,
    number: u32,
    reservation: u64,
    held: u64,
    limit: u64,
) -> Result<String, Fail> {
    let spaces = "  ".repeat(alloc, number as usize)?;
    Ok(format!(in alloc;
        "\n{spaces}#{number} Allocator(level-{number}) {reservation}/{held}/{held}/{limit} (res/actual/peak/limit)\n"
    )?)
}

#[test]
fn a_chain_of_63_allocators_holds_what_the_definitions_give(rt: HostRuntime) -> Result<(), Fail> {
    const LIMIT: u64 = 1_000_000;
    // The chain by the definitions. Nothing is given back or refused, so that each peak is what is held.
    let mut nodes = Vec::new(rt.alloc());
    let mut charges = Vec::new(rt.alloc());
    nodes.push(node(0, None, 0, LIMIT))?;
    let mut opens = String::new(rt.alloc());
    let mut closes = String::new(rt.alloc());
    let mut parent = String::from_str(rt.alloc(), "ROOT")?;
    for i in 1..64 {
        // The reservations grow and shrink, so that at some levels one below covers more.
        let number: u32 = i;
        let reservation = u64::from(number * 37 % 64) * 64;
        nodes.push(node(number, Some(AllocId(number - 1)), reservation, LIMIT))?;
        charges.push(Charge {
            at: AllocId(number),
            amount: 512,
        })?;
        let name = format!(in rt.alloc(); "level-{number}")?;
        write!(
            opens,
            "child {name} {parent} {reservation} {LIMIT}\nbuffer b{number} {name} 512\n"
        )?;
        parent = name;
        // Closed from the deepest up.
        let deepest: u32 = 64 - i;
        write!(closes, "release b{deepest}\nclose level-{deepest}\n")?;
    }
    let mut script = format!(in rt.alloc(); "root {LIMIT}\n{opens}tree\n")?;
    let text = printed(rt.alloc(), script.as_str())?;
    assert!(rt; nodes.len() == 64);
    for depth in 1..8 {
        let number: u32 = depth * 8;
        let held = held_at(&rt, &nodes, &charges, AllocId(number));
        let line = level_line(
            rt.alloc(),
            number,
            nodes[number as usize].reservation,
            held,
            LIMIT,
        )?;
        assert!(rt; text.contains(line.as_str()), "{line}");
    }

    // All are closed, and then opened and closed once more: no name is free again, and no number.
    write!(script, "{closes}child again ROOT 0 1\n{opens}{closes}")?;
    let mut want = text;
    for i in 1..64 {
        let number: u32 = 64 - i;
        write!(want, "release b{number} gone\nclose level-{number} ok\n")?;
    }
    want.push_str("nodes 64\n")?;
    for number in 1..64 {
        write!(want, "taken level-{number}\ntaken b{number}\n")?;
    }
    for i in 1..64 {
        let number: u32 = 64 - i;
        write!(
            want,
            "released chunk {number} at #{number}\nclosed #{number}\n"
        )?;
    }
    let text = printed(rt.alloc(), script.as_str())?;
    assert_eq!(rt; text.as_str(), want.as_str());
    Ok(())
}
