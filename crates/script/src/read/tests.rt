//! The corners of the grammar, with the scripts that are expected written out.
use super::*;
use crate::line::Line;
use crate::section::Section;
use std::alloc::{AllocError, Global};
use std::test::Fail;

// The limit and the lines of a trace, or its first unreadable line.
fn trace(alloc: Global, text: &str) -> Result<String, AllocError> {
    read(alloc, text.as_bytes(), Form::Trace)
}

fn read(alloc: Global, bytes: &[u8], form: Form) -> Result<String, AllocError> {
    let mut shown = String::new(alloc);
    match read_script(alloc, bytes, form) {
        Ok(script) => {
            let limit = script.limit();
            write!(shown, "{limit}")?;
            for section in script.sections() {
                show(section, &mut shown)?;
            }
        }
        Err(ScriptRefused::Bad { line }) => write!(shown, "line {line}")?,
        Err(ScriptRefused::NoMemory) => return Err(AllocError),
    }
    Ok(shown)
}

fn show(section: &Section, shown: &mut String) -> Result<(), AllocError> {
    write!(shown, ":")?;
    for line in section.lines() {
        match line {
            Line::Root { limit } => write!(shown, " root {limit};")?,
            Line::Child {
                name,
                parent,
                reservation,
                limit,
            } => write!(shown, " child {name} {parent} {reservation} {limit};")?,
            Line::Buffer { name, at, size } => write!(shown, " buffer {name} {at} {size};")?,
            Line::Retain { name, source, at } => write!(shown, " retain {name} {source} {at};")?,
            Line::Transfer { name, source, at } => {
                write!(shown, " transfer {name} {source} {at};")?;
            }
            Line::Slice {
                name,
                source,
                start,
                length,
            } => write!(shown, " slice {name} {source} {start} {length};")?,
            Line::Release { name } => write!(shown, " release {name};")?,
            Line::Close { at } => write!(shown, " close {at};")?,
            Line::Headroom { at } => write!(shown, " headroom {at};")?,
            Line::Tree => write!(shown, " tree;")?,
            Line::Report => write!(shown, " report;")?,
        }
    }
    Ok(())
}

#[test]
fn a_script_is_its_lines_in_order(rt: HostRuntime) -> Result<(), Fail> {
    for (text, want) in [
        ("", "9223372036854775807:"),
        ("tree", "9223372036854775807: tree;"),
        (
            "root 40\nbuffer a ROOT 16\ntree\nbuffer b x.Y_-9 0\n",
            "40: root 40; buffer a ROOT 16; tree; buffer b x.Y_-9 0;",
        ),
        (
            "child c ROOT 5 0\nheadroom c\nrelease a\nclose ROOT\nchild ROOT c 0 7",
            "9223372036854775807: child c ROOT 5 0; headroom c; release a; close ROOT; child ROOT c 0 7;",
        ),
        (
            "retain b a c\ntransfer d b ROOT\nslice s d 007 9223372036854775807\nreport",
            "9223372036854775807: retain b a c; transfer d b ROOT; slice s d 7 9223372036854775807; report;",
        ),
        ("retain b a\n", "line 1"),
        ("transfer b a c/d\n", "line 1"),
        ("slice s a -1 2\n", "line 1"),
        ("slice s a 1 9223372036854775808\n", "line 1"),
        ("report all\n", "line 1"),
    ] {
        assert_eq!(rt; trace(rt.alloc(), text)?.as_str(), want, "at {text:?}");
    }
    Ok(())
}

#[test]
fn comments_and_blanks_say_nothing(rt: HostRuntime) -> Result<(), Fail> {
    for (text, want) in [
        ("\n\n", "9223372036854775807:"),
        (" \t \n\t", "9223372036854775807:"),
        ("# tree\n \t#tree\n#", "9223372036854775807:"),
        ("\t tree \t\n", "9223372036854775807: tree;"),
        (
            "buffer\ta \t ROOT  1\n",
            "9223372036854775807: buffer a ROOT 1;",
        ),
        ("# first\n\nroot 5\n", "5: root 5;"),
        ("tree # shown\n", "line 1"),
        ("tree\n\nchild\n", "line 3"),
    ] {
        assert_eq!(rt; trace(rt.alloc(), text)?.as_str(), want, "at {text:?}");
    }
    Ok(())
}

#[test]
fn a_carriage_return_goes_only_before_a_line_feed(rt: HostRuntime) -> Result<(), Fail> {
    for (text, want) in [
        ("tree\r\ntree\r\n", "9223372036854775807: tree; tree;"),
        ("\r\n", "9223372036854775807:"),
        ("tree\r", "line 1"),
        ("\r", "line 1"),
        ("tree\r\r\n", "line 1"),
        ("tr\ree\n", "line 1"),
        ("tree\rtree\n", "line 1"),
        ("# tree\rtree", "9223372036854775807:"),
    ] {
        assert_eq!(rt; trace(rt.alloc(), text)?.as_str(), want, "at {text:?}");
    }
    Ok(())
}

#[test]
fn a_number_is_digits_with_a_value_up_to_the_bound(rt: HostRuntime) -> Result<(), Fail> {
    for (text, want) in [
        ("root 0", "0: root 0;"),
        ("root 007", "7: root 7;"),
        (
            "root 9223372036854775807",
            "9223372036854775807: root 9223372036854775807;",
        ),
        (
            "root 000000000000000000000000000000000000000001",
            "1: root 1;",
        ),
        ("root 9223372036854775808", "line 1"),
        ("root 18446744073709551617", "line 1"),
        ("root +1", "line 1"),
        ("root -1", "line 1"),
        ("root 1_000", "line 1"),
        ("root 0x10", "line 1"),
        ("buffer a ROOT 9223372036854775808", "line 1"),
    ] {
        assert_eq!(rt; trace(rt.alloc(), text)?.as_str(), want, "at {text:?}");
    }
    Ok(())
}

#[test]
fn a_name_has_1_to_32_bytes(rt: HostRuntime) -> Result<(), Fail> {
    for (text, want) in [
        (
            "buffer abcdefghijklmnopqrstuvwxyz_-.012 ABCDEFGHIJKLMNOPQRSTUVWXYZ345678 9",
            "9223372036854775807: buffer abcdefghijklmnopqrstuvwxyz_-.012 ABCDEFGHIJKLMNOPQRSTUVWXYZ345678 9;",
        ),
        ("buffer abcdefghijklmnopqrstuvwxyz_-.0123 ROOT 9", "line 1"),
        ("buffer a ABCDEFGHIJKLMNOPQRSTUVWXYZ3456789 9", "line 1"),
        ("buffer a/b ROOT 9", "line 1"),
        ("buffer a R:OT 9", "line 1"),
        ("buffer ä ROOT 9", "line 1"),
        ("child abcdefghijklmnopqrstuvwxyz_-.0123 ROOT 0 9", "line 1"),
        ("child c ABCDEFGHIJKLMNOPQRSTUVWXYZ3456789 0 9", "line 1"),
        ("release abcdefghijklmnopqrstuvwxyz_-.0123", "line 1"),
        ("close ABCDEFGHIJKLMNOPQRSTUVWXYZ3456789", "line 1"),
        ("headroom ABCDEFGHIJKLMNOPQRSTUVWXYZ3456789", "line 1"),
        (
            "headroom ABCDEFGHIJKLMNOPQRSTUVWXYZ345678",
            "9223372036854775807: headroom ABCDEFGHIJKLMNOPQRSTUVWXYZ345678;",
        ),
    ] {
        assert_eq!(rt; trace(rt.alloc(), text)?.as_str(), want, "at {text:?}");
    }
    Ok(())
}

#[test]
fn a_line_of_another_form_is_unreadable(rt: HostRuntime) -> Result<(), Fail> {
    for text in [
        "buffer a ROOT",
        "buffer a ROOT 1 2",
        "buffer a ROOT 1 2 3 4 5 6 7 8",
        "buffer",
        "tree ROOT",
        "root",
        "root 1 2",
        "Tree",
        "trees",
        "child c ROOT 0",
        "child c ROOT 0 9 9",
        "children c ROOT 0 9",
        "release",
        "release a b",
        "close",
        "close a b",
        "headroom",
        "headroom a b",
        "thread",
    ] {
        assert_eq!(rt; trace(rt.alloc(), text)?.as_str(), "line 1", "at {text:?}");
    }
    Ok(())
}

#[test]
fn a_reservation_has_a_bound_of_its_own(rt: HostRuntime) -> Result<(), Fail> {
    for (text, want) in [
        (
            "child c ROOT 1099511627776 9223372036854775807",
            "9223372036854775807: child c ROOT 1099511627776 9223372036854775807;",
        ),
        (
            "child c ROOT 00001099511627776 0007",
            "9223372036854775807: child c ROOT 1099511627776 7;",
        ),
        ("child c ROOT 1099511627777 9223372036854775807", "line 1"),
        ("child c ROOT 18446744073709551616 1", "line 1"),
        ("child c ROOT 0 9223372036854775808", "line 1"),
        ("child c ROOT +1 2", "line 1"),
        ("child c ROOT 1 two", "line 1"),
    ] {
        assert_eq!(rt; trace(rt.alloc(), text)?.as_str(), want, "at {text:?}");
    }
    Ok(())
}

#[test]
fn the_first_unreadable_line_is_told(rt: HostRuntime) -> Result<(), Fail> {
    for (text, want) in [
        ("bufer", "line 1"),
        ("tree\nbufer\ntree\nbufer\n", "line 2"),
        ("# one\n\n \t\nbuffer a ROOT\n", "line 4"),
        ("tree\r\n#\r\n\r\nroot 5\r\nroot 5\r\n", "line 4"),
        ("tree\ntree ROOT", "line 2"),
        ("tree\n\n", "9223372036854775807: tree;"),
    ] {
        assert_eq!(rt; trace(rt.alloc(), text)?.as_str(), want, "at {text:?}");
    }
    Ok(())
}

#[test]
fn a_root_line_stands_first_and_once(rt: HostRuntime) -> Result<(), Fail> {
    for (text, want) in [
        ("\n# limit\n\nroot 5\ntree\n", "5: root 5; tree;"),
        ("root 5\nroot 5\n", "line 2"),
        ("tree\nroot 5\n", "line 2"),
        ("root 5\ntree\nroot 5\n", "line 3"),
    ] {
        assert_eq!(rt; trace(rt.alloc(), text)?.as_str(), want, "at {text:?}");
    }
    Ok(())
}

// The same line that many times.
fn repeated(alloc: Global, line: &[u8], count: usize) -> Result<Vec<u8>, AllocError> {
    let mut text = Vec::new(alloc);
    for _ in 0..count {
        text.extend_from_slice(line)?;
    }
    Ok(text)
}

#[test]
fn a_trace_has_at_most_1000_tree_lines(rt: HostRuntime) -> Result<(), Fail> {
    let alloc = rt.alloc();
    let most = repeated(alloc, b"tree\n", 1000)?;
    let script = read_script(alloc, &most, Form::Trace)?;
    assert_eq!(rt; script.sections().len(), 1);
    for section in script.sections() {
        assert_eq!(rt; section.lines().len(), 1000);
    }
    let more = repeated(alloc, b"tree\n", 1001)?;
    assert_eq!(rt; read(alloc, &more, Form::Trace)?.as_str(), "line 1001");
    Ok(())
}

#[test]
fn a_trace_has_at_most_16_report_lines(rt: HostRuntime) -> Result<(), Fail> {
    let alloc = rt.alloc();
    let most = repeated(alloc, b"report\n# tree\n", 16)?;
    let script = read_script(alloc, &most, Form::Trace)?;
    for section in script.sections() {
        assert_eq!(rt; section.lines().len(), 16);
    }
    let more = repeated(alloc, b"report\n", 17)?;
    assert_eq!(rt; read(alloc, &more, Form::Trace)?.as_str(), "line 17");
    Ok(())
}

#[test]
fn a_drive_has_no_tree_report_or_headroom_and_no_slice_in_its_setup(
    rt: HostRuntime,
) -> Result<(), Fail> {
    for (text, want) in [
        ("root 5\nbuffer a ROOT 1", "5: root 5; buffer a ROOT 1;"),
        ("root 5\ntree\n", "line 2"),
        ("headroom ROOT\n", "line 1"),
        ("report\n", "line 1"),
        ("buffer a ROOT 8\nslice s a 0 4\n", "line 2"),
        ("# tree\n", "9223372036854775807:"),
        (
            "child c ROOT 0 9\nbuffer a c 1\nrelease a\nclose c\n",
            "9223372036854775807: child c ROOT 0 9; buffer a c 1; release a; close c;",
        ),
    ] {
        let bytes = text.as_bytes();
        assert_eq!(rt;
            read(rt.alloc(), bytes, Form::Drive)?.as_str(),
            want,
            "at {text:?}"
        );
    }
    Ok(())
}

#[test]
fn bytes_that_are_no_text_stand_in_comments_only(rt: HostRuntime) -> Result<(), Fail> {
    for (bytes, want) in [
        (b"# \xff\xfe\n".as_slice(), "9223372036854775807:"),
        (b"tree\xff".as_slice(), "line 1"),
        (b"\xff#\n".as_slice(), "line 1"),
        (b"root 1\x80".as_slice(), "line 1"),
        (b"buffer a\xc3\xa4 ROOT 1".as_slice(), "line 1"),
        (b"tree\0".as_slice(), "line 1"),
    ] {
        assert_eq!(rt;
            read(rt.alloc(), bytes, Form::Trace)?.as_str(),
            want,
            "at {bytes:?}"
        );
    }
    Ok(())
}
