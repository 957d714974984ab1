use super::read_plan;
use crate::refused::PlanRefused;
use query_model::{Cell, Kind, Op, Output};
use std::alloc::{AllocError, Global};
use std::test::Fail;

const BAD: Option<PlanRefused> = Some(PlanRefused::Bad);

// Why a document is refused, if it is.
fn refusal(alloc: Global, document: &[u8]) -> Option<PlanRefused> {
    read_plan(alloc, document).err()
}

// Why these lines after the columns city:text and mm:int are refused, if they are.
fn refusal_of(alloc: Global, lines: &str) -> Result<Option<PlanRefused>, AllocError> {
    let document = format!(in alloc; "columns = [\"city:text\", \"mm:int\"]\n{lines}\n")?;
    Ok(refusal(alloc, document.as_bytes()))
}

// Why this text beside a selection is refused, if it is.
fn refusal_beside(alloc: Global, text: &str) -> Result<Option<PlanRefused>, AllocError> {
    let lines = format!(in alloc; "select = [\"mm\"]\n{text}")?;
    refusal_of(alloc, lines.as_str())
}

// Why a test with this inside is refused, if it is.
fn refusal_of_test(alloc: Global, inside: &str) -> Result<Option<PlanRefused>, AllocError> {
    let line = format!(in alloc; "filter = [{{ {inside} }}]")?;
    refusal_beside(alloc, line.as_str())
}

// Why so many columns with so many tests are refused, if they are.
fn refusal_with(
    alloc: Global,
    columns: u32,
    tests: u32,
) -> Result<Option<PlanRefused>, AllocError> {
    let mut document = String::from_str(alloc, "select = [\"c0\"]\ncolumns = [")?;
    for column in 0..columns {
        let item = format!(in alloc; "\"c{column}:int\", ")?;
        document.push_str(item.as_str())?;
    }
    document.push_str("]\nfilter = [")?;
    for value in 0..tests {
        let item = format!(in alloc; "{{ column = \"c0\", op = \"ne\", value = {value} }}, ")?;
        document.push_str(item.as_str())?;
    }
    document.push_str("]\n")?;
    Ok(refusal(alloc, document.as_bytes()))
}

#[test]
fn a_grouped_plan_is_read(rt: HostRuntime) -> Result<(), Fail> {
    let document = b"columns = [\"key:text\", \"a:int\", \"b:int\"]
batch = 256
group = \"key\"
sums = [\"a\", \"b\"]
[[filter]]
column = \"a\"
op = \"ge\"
value = -500
[limits]
scan = 4096
[reserve]
scan = 1024
result = 1
";
    let plan = read_plan(rt.alloc(), document).expect(&rt, "a plan");
    let [key, a, b] = plan.columns.as_slice() else {
        panic!(rt; "three columns");
    };
    assert!(rt; key.name.is(b"key") && key.kind == Kind::Text);
    assert!(rt; a.name.is(b"a") && a.kind == Kind::Int);
    assert!(rt; b.name.is(b"b") && b.kind == Kind::Int);
    assert_eq!(rt; plan.batch, 256);
    let [test] = plan.tests.as_slice() else {
        panic!(rt; "one test");
    };
    assert_eq!(rt; test.column, 1);
    assert_eq!(rt; test.op, Op::Ge);
    assert!(rt; matches!(&test.value, Cell::Int(-500)));
    let Output::Group { key, sums } = &plan.output else {
        panic!(rt; "a grouped answer");
    };
    assert_eq!(rt; *key, 0);
    assert_eq!(rt; sums.as_slice(), [1, 2].as_slice());
    let most = 9_223_372_036_854_775_807;
    assert_eq!(rt; plan.limits, [most, 4096, most, most, most, most]);
    assert_eq!(rt; plan.reserves, [1024, 0, 0, 0, 1]);
    Ok(())
}

#[test]
fn what_a_plan_leaves_out_has_its_usual_value(rt: HostRuntime) -> Result<(), Fail> {
    let document = b"columns = [\"city:text\", \"mm:int\"]\nselect = [\"mm\", \"city\"]\n";
    let plan = read_plan(rt.alloc(), document).expect(&rt, "a plan");
    assert_eq!(rt; plan.batch, 1024);
    assert!(rt; plan.tests.as_slice().is_empty());
    let Output::Select(picks) = &plan.output else {
        panic!(rt; "picked columns");
    };
    assert_eq!(rt; picks.as_slice(), [1, 0].as_slice());
    assert_eq!(rt; plan.limits, [9_223_372_036_854_775_807; 6]);
    assert_eq!(rt; plan.reserves, [0; 5]);
    Ok(())
}

#[test]
fn a_text_is_compared_with_a_text(rt: HostRuntime) -> Result<(), Fail> {
    let document = b"columns = [\"city:text\"]\nselect = [\"city\"]
filter = [{ value = \"\\u00e5s\", column = \"city\", op = \"lt\" }]\n";
    let plan = read_plan(rt.alloc(), document).expect(&rt, "a plan");
    match plan.tests.as_slice() {
        [test] => match &test.value {
            Cell::Text(text) => assert!(rt; text.is(b"\xc3\xa5s") && test.op == Op::Lt),
            _ => panic!(rt; "a text"),
        },
        _ => panic!(rt; "one test"),
    }
    Ok(())
}

#[test]
fn columns_have_names_and_kinds(rt: HostRuntime) -> Result<(), Fail> {
    for document in [
        b"columns = [\"a:int\"]\nselect = [\"a\"]".as_slice(),
        b"columns = [\"-._:text\"]\nselect = [\"-._\"]",
    ] {
        assert_eq!(rt; refusal(rt.alloc(), document), None);
    }
    for document in [
        b"select = [\"a\"]".as_slice(),
        b"columns = []\nselect = [\"a\"]",
        b"columns = \"a:int\"\nselect = [\"a\"]",
        b"columns = [1]\nselect = [\"a\"]",
        b"columns = [\"a\"]\nselect = [\"a\"]",
        b"columns = [\"a:sum\"]\nselect = [\"a\"]",
        b"columns = [\":int\"]\nselect = [\"\"]",
        b"columns = [\"a b:int\"]\nselect = [\"a b\"]",
        b"columns = [\"a:b:int\"]\nselect = [\"a:b\"]",
        b"columns = [\"a:int\", \"a:text\"]\nselect = [\"a\"]",
    ] {
        assert_eq!(rt; refusal(rt.alloc(), document), BAD);
    }
    Ok(())
}

#[test]
fn what_is_no_document_is_refused(rt: HostRuntime) -> Result<(), Fail> {
    for document in [
        b"".as_slice(),
        // Cut at a quote, no UTF-8, a key twice.
        b"columns = [\"a:int\"]\nselect = [\"a",
        b"columns = [\"a:int\"]\nselect = [\"a\"]\n# \xff",
        b"columns = [\"a:int\"]\nselect = [\"a\"]\nselect = [\"a\"]",
    ] {
        assert_eq!(rt; refusal(rt.alloc(), document), BAD);
    }
    Ok(())
}

#[test]
fn a_plan_has_so_many_columns_and_tests(rt: HostRuntime) -> Result<(), Fail> {
    for (columns, tests, refused) in [(32, 8, None), (33, 0, BAD), (1, 9, BAD)] {
        assert_eq!(rt; refusal_with(rt.alloc(), columns, tests)?, refused);
    }
    Ok(())
}

#[test]
fn no_table_has_another_key(rt: HostRuntime) -> Result<(), Fail> {
    for text in [
        "workers = 2",
        "limits = { merge = 1 }",
        "reserve = { root = 1 }",
        "filter = [{ column = \"mm\", op = \"eq\", value = 1, not = true }]",
    ] {
        assert_eq!(rt; refusal_beside(rt.alloc(), text)?, BAD, "{text}");
    }
    for text in ["filter = []", "limits = {}", "reserve = {}"] {
        assert_eq!(rt; refusal_beside(rt.alloc(), text)?, None, "{text}");
    }
    Ok(())
}

#[test]
fn a_batch_has_1_to_65536_rows(rt: HostRuntime) -> Result<(), Fail> {
    for (text, refused) in [
        ("batch = 1", None),
        ("batch = 65536", None),
        ("batch = 0", BAD),
        ("batch = 65537", BAD),
        ("batch = -1", BAD),
        ("batch = 2.0", BAD),
        ("batch = \"2\"", BAD),
    ] {
        assert_eq!(rt; refusal_beside(rt.alloc(), text)?, refused, "{text}");
    }
    Ok(())
}

#[test]
fn an_answer_is_a_selection_or_a_key_and_sums(rt: HostRuntime) -> Result<(), Fail> {
    for (lines, refused) in [
        ("select = [\"city\"]", None),
        ("group = \"city\"\nsums = [\"mm\"]", None),
        // Any column may be the key, and be summed besides.
        ("group = \"mm\"\nsums = [\"mm\"]", None),
        ("", BAD),
        ("group = \"city\"", BAD),
        ("sums = [\"mm\"]", BAD),
        ("select = [\"mm\"]\ngroup = \"city\"", BAD),
        ("select = [\"mm\"]\nsums = [\"mm\"]", BAD),
        ("select = [\"mm\"]\ngroup = \"city\"\nsums = [\"mm\"]", BAD),
    ] {
        assert_eq!(rt; refusal_of(rt.alloc(), lines)?, refused, "{lines}");
    }
    Ok(())
}

#[test]
fn picked_columns_are_there_and_differ(rt: HostRuntime) -> Result<(), Fail> {
    for lines in [
        "select = []",
        "select = \"mm\"",
        "select = [\"cm\"]",
        "select = [1]",
        "select = [\"mm\", \"city\", \"mm\"]",
        "group = \"town\"\nsums = [\"mm\"]",
        "group = [\"city\"]\nsums = [\"mm\"]",
        "group = \"city\"\nsums = []",
        "group = \"city\"\nsums = [\"city\"]",
        "group = \"city\"\nsums = [\"mm\", \"mm\"]",
    ] {
        assert_eq!(rt; refusal_of(rt.alloc(), lines)?, BAD, "{lines}");
    }
    Ok(())
}

#[test]
fn a_test_has_a_column_and_a_value_of_its_kind(rt: HostRuntime) -> Result<(), Fail> {
    for (inside, refused) in [
        (
            "column = \"mm\", op = \"eq\", value = -9223372036854775808",
            None,
        ),
        ("column = \"city\", op = \"ne\", value = \"\"", None),
        ("", BAD),
        ("op = \"eq\", value = 1", BAD),
        ("column = \"mm\", value = 1", BAD),
        ("column = \"mm\", op = \"eq\"", BAD),
        ("column = \"cm\", op = \"eq\", value = 1", BAD),
        ("column = \"mm\", op = \"==\", value = 1", BAD),
        ("column = \"mm\", op = \"eq\", value = \"1\"", BAD),
        ("column = \"mm\", op = \"eq\", value = 1.0", BAD),
        ("column = \"city\", op = \"eq\", value = 1", BAD),
    ] {
        assert_eq!(rt; refusal_of_test(rt.alloc(), inside)?, refused, "{inside}");
    }
    for text in [
        "filter = [1]",
        "filter = { column = \"mm\", op = \"eq\", value = 1 }",
    ] {
        assert_eq!(rt; refusal_beside(rt.alloc(), text)?, BAD, "{text}");
    }
    Ok(())
}

#[test]
fn a_reservation_is_at_most_its_limit(rt: HostRuntime) -> Result<(), Fail> {
    for (text, refused) in [
        ("limits = { root = 9223372036854775807 }", None),
        ("reserve = { filter = 1099511627776 }", None),
        ("limits.project = 5\nreserve.project = 5", None),
        // It may be above the limit of another allocator, the root's too.
        (
            "limits = { root = 0, scan = 1 }\nreserve = { sums = 2 }",
            None,
        ),
        ("limits = 1", BAD),
        ("limits = { scan = -1 }", BAD),
        ("limits = { root = 9223372036854775808 }", BAD),
        ("reserve = { scan = 1099511627777 }", BAD),
        ("limits = { result = 4 }\nreserve = { result = 5 }", BAD),
    ] {
        assert_eq!(rt; refusal_beside(rt.alloc(), text)?, refused, "{text}");
    }
    Ok(())
}
