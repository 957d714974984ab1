//! Worked examples of the names of allocators.

use super::*;
use std::test::Fail;

/// A name of 32 bytes, the most that a name has.
const LONGEST: &str = "abcdefghijklmnopqrstuvwxyz-01234";

/// Names with these bound, besides `ROOT`.
fn named(rt: &impl AllocGlobal, bindings: &[(&str, u32)]) -> Result<Names, Fail> {
    let mut names = Names::new(rt.alloc());
    for (name, number) in bindings {
        let ready = names.ready(name)?;
        names.bind(ready, AllocId(*number));
    }
    Ok(names)
}

#[test]
fn the_root_is_named_from_the_start(rt: HostRuntime) {
    let names = Names::new(rt.alloc());
    for (name, number) in [("ROOT", Some(AllocId(0))), ("root", None), ("", None)] {
        assert_eq!(rt; names.find(name), number, "{name}");
    }
    assert_eq!(rt; names.name_of(AllocId(0)), Some("ROOT"));
    assert_eq!(rt; names.name_of(AllocId(1)), None);
}

#[test]
fn a_name_has_1_to_32_bytes(rt: HostRuntime) {
    let mut names = Names::new(rt.alloc());
    for name in ["a", "Scan_1.part-0", "7", "-", LONGEST] {
        assert!(rt; names.ready(name).is_ok(), "{name}");
    }
    for name in [
        "",
        "a b",
        "a/b",
        "#1",
        "ä",
        "abcdefghijklmnopqrstuvwxyz-012345",
    ] {
        let refused = names.ready(name).err();
        assert_eq!(rt; refused, Some(NameRefused::BadName), "{name}");
    }
}

#[test]
fn a_bound_name_is_taken(rt: HostRuntime) -> Result<(), Fail> {
    let mut names = named(&rt, &[("scan", 1), ("sum", 2)])?;
    for name in ["ROOT", "scan", "sum"] {
        let refused = names.ready(name).err();
        assert_eq!(rt; refused, Some(NameRefused::NameTaken), "{name}");
    }
    let ready = names.ready("Scan")?;
    assert_eq!(rt; ready.as_str(), "Scan");
    Ok(())
}

#[test]
fn an_allocator_shows_its_first_name(rt: HostRuntime) -> Result<(), Fail> {
    let names = named(&rt, &[("scan", 1), ("sum", 2), ("again", 1), ("top", 0)])?;
    for (name, number) in [
        ("scan", 1),
        ("sum", 2),
        ("again", 1),
        ("top", 0),
        ("ROOT", 0),
    ] {
        assert_eq!(rt; names.find(name), Some(AllocId(number)), "{name}");
    }
    for (number, name) in [(0, "ROOT"), (1, "scan"), (2, "sum")] {
        assert_eq!(rt; names.name_of(AllocId(number)), Some(name), "{number}");
    }
    assert_eq!(rt; names.name_of(AllocId(3)), None);
    Ok(())
}

#[test]
fn a_copy_goes_its_own_way(rt: HostRuntime) -> Result<(), Fail> {
    let mut names = named(&rt, &[("scan", 1)])?;
    let mut copy = names.copy()?;
    let ready = copy.ready("sum")?;
    copy.bind(ready, AllocId(2));
    let ready = names.ready("sum")?;
    names.bind(ready, AllocId(3));
    for (named, number) in [(&copy, 2), (&names, 3)] {
        assert_eq!(rt; named.find("sum"), Some(AllocId(number)));
        assert_eq!(rt; named.find("scan"), Some(AllocId(1)));
    }
    Ok(())
}
