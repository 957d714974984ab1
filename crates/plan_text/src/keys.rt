//! The keys that the tables of a plan may have.
ghost use Rattle.std.specs.Prelude.{◌≡◌, string_bytes};
ghost use Rattle.std.specs.BTreeMap.{keys};
ghost use Rattle.std.specs.List.{list_all};
ghost use Rattle.toml.specs.View.{table_view};
ghost use Rattle.plan_text.specs.Keys.{has_only, is_among, keys_of, child_keys};

use toml::Table;

/// The keys of a table, by what it says.
#[derive(Clone, Copy, Debug)]
pub(crate) enum Keys {
    Plan,
    Test,
    Limits,
    Reserve,
}

impl Keys {
    /// Whether a table has no key but these. Takes no memory.
    pub(crate) fn are_all_of(self, table: &Table) -> bool
        ensures { result ≡ has_only (keys_of self) (table_view table.now) }
    {
        self.have_each_of(table)
    }

    // Whether each key of a table is one of these.
    fn have_each_of(self, table: &Table) -> bool
        ensures { result
            ≡ list_all (λ key. is_among (keys_of self) (string_bytes key)) (keys table.now) }
    {
        table.keys().all(|key| self.has(key.as_str()))
    }

    // Whether this is one of the keys.
    fn has(self, key: &str) -> bool
        ensures { result ≡ is_among (keys_of self) key.now }
    {
        match self {
            Keys::Plan => is_plan_key(key),
            Keys::Test => key == "column" || key == "op" || key == "value",
            Keys::Limits => key == "root" || is_child(key),
            Keys::Reserve => is_child(key),
        }
    }
}

// Whether the document of a plan may have the key.
fn is_plan_key(key: &str) -> bool
    ensures { result ≡ is_among (keys_of Keys.Plan) key.now }
{
    key == "columns"
        || key == "batch"
        || key == "filter"
        || key == "select"
        || key == "group"
        || key == "sums"
        || key == "limits"
        || key == "reserve"
}

// Whether this is the name of an allocator below the root.
fn is_child(key: &str) -> bool
    ensures { result ≡ is_among child_keys key.now }
{
    key == "scan" || key == "filter" || key == "project" || key == "sums" || key == "result"
}
