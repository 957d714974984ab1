//! What words are read as, by example.
use crate::{Command, read_command};
use std::test::Fail;

// The reading of a line whose words stand between single spaces.
fn reading(rt: &HostRuntime, line: &str) -> Result<String, Fail> {
    let mut words: Vec<String> = Vec::new(rt.alloc());
    for word in line.split(' ') {
        words.push(word.to_owned(rt.alloc())?)?;
    }
    match read_command(rt.alloc(), &words)? {
        Some(Command::Trace { file }) => Ok(format!(in rt.alloc(); "trace {file}")?),
        Some(
            Command::Query {
                plan,
                table,
                workers,
            },
        ) => Ok(format!(in rt.alloc(); "query {plan} {table} with {workers}")?),
        None => Ok(format!(in rt.alloc(); "none")?),
    }
}

#[test]
fn lines_are_read_as_commands(rt: HostRuntime) -> Result<(), Fail> {
    let cases = [
        ("trace x", "trace x"),
        ("trace -", "trace -"),
        ("trace -x", "none"),
        ("trace -- -x", "trace -x"),
        ("trace x y", "none"),
        ("query a b", "query a b with 1"),
        ("query a --workers 007 b", "query a b with 7"),
        (
            "query --workers=16 -- -a --workers",
            "query -a --workers with 16",
        ),
        ("query a b --workers 17", "none"),
        ("query a b --workers 2 --workers 2", "none"),
        ("--workers 2 query a b", "none"),
        ("-- trace x", "none"),
        ("tra x", "none"),
        ("--help", "none"),
        ("drive x", "none"),
    ];
    for (line, wanted) in cases {
        let found = reading(&rt, line)?;
        assert!(rt; found.as_str() == wanted);
    }
    Ok(())
}
