//! Chunks that several allocators refer to, with the whole output written out.
use super::*;

const CHILDREN: &str = "child a ROOT 0 9223372036854775807\nchild b ROOT 0 9223372036854775807\n";

const MADE: &str = "child a is #1\nchild b is #2\n";

#[test]
fn a_transfer_moves_the_charge_and_the_reference_stays(rt: HostRuntime) -> Result<(), Fail> {
    let script = format!(in rt.alloc();
        "{CHILDREN}buffer x a 1024\ntransfer y x b\nreport\nrelease x\nrelease y\nreport\n"
    )?;
    let want = format!(in rt.alloc();
        "{MADE}buffer x chunk 1 size 1024\n\
         transfer y chunk 1 at #2 fit\n\
         #0 Allocator(ROOT) 0/1024/2048/9223372036854775807 (res/actual/peak/limit)\n\
         \x20 #1 Allocator(a) 0/0/1024/9223372036854775807 (res/actual/peak/limit)\n\
         \x20 #2 Allocator(b) 0/1024/1024/9223372036854775807 (res/actual/peak/limit)\n\
         chunk 1 size 1024 owner #2 refs #1:1 #2:1\n\
         refs 2\n\
         release x gone\n\
         release y gone\n\
         #0 Allocator(ROOT) 0/0/2048/9223372036854775807 (res/actual/peak/limit)\n\
         \x20 #1 Allocator(a) 0/0/1024/9223372036854775807 (res/actual/peak/limit)\n\
         \x20 #2 Allocator(b) 0/0/1024/9223372036854775807 (res/actual/peak/limit)\n\
         refs 0\n"
    )?;
    let text = printed(rt.alloc(), script.as_str())?;
    assert_eq!(rt; text.as_str(), want.as_str());
    Ok(())
}

#[test]
fn a_transfer_past_a_limit_is_made_and_told(rt: HostRuntime) -> Result<(), Fail> {
    let text = printed(
        rt.alloc(),
        "child a ROOT 0 9223372036854775807\nchild b ROOT 0 512\nbuffer x a 1024\n\
         transfer y x b\nheadroom b\nreport\n",
    )?;
    assert_eq!(rt;
        text.as_str(),
        "child a is #1\nchild b is #2\nbuffer x chunk 1 size 1024\n\
         transfer y chunk 1 at #2 over\n\
         headroom b -512\n\
         #0 Allocator(ROOT) 0/1024/2048/9223372036854775807 (res/actual/peak/limit)\n\
         \x20 #1 Allocator(a) 0/0/1024/9223372036854775807 (res/actual/peak/limit)\n\
         \x20 #2 Allocator(b) 0/1024/1024/512 (res/actual/peak/limit)\n\
         chunk 1 size 1024 owner #2 refs #1:1 #2:1\n\
         refs 2\n"
    );
    Ok(())
}

#[test]
fn the_least_allocator_that_remains_is_charged_next(rt: HostRuntime) -> Result<(), Fail> {
    let script = format!(in rt.alloc();
        "{CHILDREN}child c ROOT 0 9223372036854775807\nbuffer x a 1024\nretain y x b\ntransfer z y c\nreport\n\
         release x\nreport\nrelease x\nretain q x a\nreport\n"
    )?;
    let after = "#0 Allocator(ROOT) 0/1024/2048/9223372036854775807 (res/actual/peak/limit)\n\
         \x20 #1 Allocator(a) 0/0/1024/9223372036854775807 (res/actual/peak/limit)\n\
         \x20 #2 Allocator(b) 0/1024/1024/9223372036854775807 (res/actual/peak/limit)\n\
         \x20 #3 Allocator(c) 0/0/0/9223372036854775807 (res/actual/peak/limit)\n\
         chunk 1 size 1024 owner #2 refs #2:1 #3:1\n\
         refs 2\n";
    let want = format!(in rt.alloc();
        "{MADE}child c is #3\nbuffer x chunk 1 size 1024\n\
         retain y chunk 1 at #2\n\
         transfer z chunk 1 at #3 fit\n\
         #0 Allocator(ROOT) 0/1024/1024/9223372036854775807 (res/actual/peak/limit)\n\
         \x20 #1 Allocator(a) 0/1024/1024/9223372036854775807 (res/actual/peak/limit)\n\
         \x20 #2 Allocator(b) 0/0/0/9223372036854775807 (res/actual/peak/limit)\n\
         \x20 #3 Allocator(c) 0/0/0/9223372036854775807 (res/actual/peak/limit)\n\
         chunk 1 size 1024 owner #1 refs #1:1 #2:1 #3:1\n\
         refs 3\n\
         release x gone\n\
         {after}released chunk 1 at #1\nreleased chunk 1 at #1\n{after}"
    )?;
    let text = printed(rt.alloc(), script.as_str())?;
    assert_eq!(rt; text.as_str(), want.as_str());
    Ok(())
}

#[test]
fn an_allocator_that_refers_to_a_chunk_is_in_use(rt: HostRuntime) -> Result<(), Fail> {
    let script = format!(in rt.alloc();
        "{CHILDREN}buffer x a 2\nretain y x b\nclose b\nrelease y\nclose b\nbuffer z b 2\nheadroom b\n\
         retain w x b\ntransfer w x b\nreport\n"
    )?;
    let want = format!(in rt.alloc();
        "{MADE}buffer x chunk 1 size 2\n\
         retain y chunk 1 at #2\n\
         inuse 1\n\
         release y gone\n\
         close b ok\n\
         closed #2\nclosed #2\nclosed #2\nclosed #2\n\
         #0 Allocator(ROOT) 0/2/2/9223372036854775807 (res/actual/peak/limit)\n\
         \x20 #1 Allocator(a) 0/2/2/9223372036854775807 (res/actual/peak/limit)\n\
         chunk 1 size 2 owner #1 refs #1:1\n\
         refs 1\n"
    )?;
    let text = printed(rt.alloc(), script.as_str())?;
    assert_eq!(rt; text.as_str(), want.as_str());
    Ok(())
}

#[test]
fn slices_share_one_reference(rt: HostRuntime) -> Result<(), Fail> {
    for (script, want) in [
        (
            "buffer x ROOT 100\nslice s x 28 100\nslice t s 100 1\nslice u s 100 0\nrelease s\nrelease x\nslice v u 0 0\n",
            "buffer x chunk 1 size 128\n\
             slice s from 28 len 100\n\
             outside 100\n\
             slice u from 128 len 0\n\
             release s gone\n\
             released chunk 1 at #0\n\
             released chunk 1 at #0\n",
        ),
        // A reference of its own is counted, also at the same allocator, and has the source's range.
        (
            "buffer x ROOT 100\nslice s x 8 20\nretain y s ROOT\nslice t y 20 1\nslice t y 4 16\nrelease x\nrelease y\n",
            "buffer x chunk 1 size 128\n\
             slice s from 8 len 20\n\
             retain y chunk 1 at #0\n\
             outside 20\n\
             slice t from 12 len 16\n\
             release x kept\n\
             release y gone\n",
        ),
    ] {
        let text = printed(rt.alloc(), script)?;
        assert_eq!(rt; text.as_str(), want, "at {script:?}");
    }
    Ok(())
}

#[test]
fn an_empty_buffer_is_referred_to_for_nothing(rt: HostRuntime) -> Result<(), Fail> {
    let text = printed(
        rt.alloc(),
        "child c ROOT 0 8\nclose c\nbuffer e ROOT 0\nretain f e c\ntransfer g f c\nslice h g 0 0\nslice i g 0 1\n\
         retain e e c\nretain j k c\nretain j e k\nrelease h\nrelease e\nreport\n",
    )?;
    assert_eq!(rt;
        text.as_str(),
        "child c is #1\nclose c ok\nbuffer e empty\nretain f empty\ntransfer g empty fit\n\
         slice h from 0 len 0\noutside 0\ntaken e\nunknown k\nunknown k\nrelease h empty\nrelease e empty\n\
         #0 Allocator(ROOT) 0/0/0/9223372036854775807 (res/actual/peak/limit)\n\
         refs 0\n"
    );
    Ok(())
}
