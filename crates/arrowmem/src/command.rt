//! The words of the command line.
ghost use Rattle.std.specs.Prelude.{◌≡◌, map, string_bytes};
ghost use Rattle.arrowmem.specs.Command.{command_read};
ghost use Rattle.arrowmem.specs.Words as spec;

/// A command, with the words for its files.
#[derive(Clone, Copy, Debug)]
pub(crate) enum Command<'a> {
    /// `trace FILE`.
    Trace { file: &'a str },
    /// `query PLAN DATA`, with one worker.
    Query { plan: &'a str, table: &'a str },
}

/// The command that the words name; other words have no reading.
pub(crate) fn read_command(words: &[String]) -> Option<Command<'_>>
    ensures { command_read result ≡ spec.command_of (map string_bytes words.now) }
{
    match words {
        [word, more @ ..] if word.as_str() == "trace" => trace_of(more),
        [word, more @ ..] if word.as_str() == "query" => query_of(more),
        _ => None,
    }
}

// The command `trace`, with the words behind its name.
fn trace_of(words: &[String]) -> Option<Command<'_>>
    ensures { command_read result ≡ spec.trace_of (map string_bytes words.now) }
{
    match words {
        [file] if is_file(file.as_str()) => Some(Command::Trace {
            file: file.as_str(),
        }),
        _ => None,
    }
}

// The command `query`, with the words behind its name.
fn query_of(words: &[String]) -> Option<Command<'_>>
    ensures { command_read result ≡ spec.query_of (map string_bytes words.now) }
{
    match words {
        [] => None,
        [_] => None,
        [plan, table] => query_of_files(plan.as_str(), table.as_str()),
        [_, _, _] => None,
        [one, two, three, four] => {
            query_of_four(one.as_str(), two.as_str(), three.as_str(), four.as_str())
        }
        [_, _, _, _, _, ..] => None,
    }
}

// The same of four words, of which two have to be the option.
fn query_of_four<'a>(
    one: &'a str,
    two: &'a str,
    three: &'a str,
    four: &'a str,
) -> Option<Command<'a>>
    ensures { command_read result ≡ spec.query_of_four one.now two.now three.now four.now }
{
    if is_one_worker(one, two) {
        query_of_files(three, four)
    } else if is_one_worker(two, three) {
        query_of_files(one, four)
    } else if is_one_worker(three, four) {
        query_of_files(one, two)
    } else {
        None
    }
}

// The query of two words, where both can be a file's.
fn query_of_files<'a>(plan: &'a str, table: &'a str) -> Option<Command<'a>>
    ensures { command_read result ≡ spec.query_of_files plan.now table.now }
{
    if is_file(plan) && is_file(table) {
        Some(Command::Query { plan, table })
    } else {
        None
    }
}

// Whether two words are the option of one worker.
fn is_one_worker(option: &str, count: &str) -> bool
    ensures { result ≡ spec.is_one_worker option.now count.now }
{
    option == "--workers" && count == "1"
}

// Whether a word can be a file's: options begin with a hyphen.
fn is_file(word: &str) -> bool
    ensures { result ≡ spec.is_file word.now }
{
    !word.is_empty() && !word.starts_with('-')
}
