//! The tests of a filter.
ghost use Rattle.std.specs.Prelude.{◌≡◌};

use crate::test::Test;
use std::marker::Model;

/// Tests that all must hold, seen as a list.
#[derive(Debug, Drop)]
pub struct Tests {
    tests: Vec<Test>,
}

impl Model for Tests {
    ghost use Rattle.std.specs.Prelude.{List};
    ghost use Rattle.query_model.specs.declared.test.Test.{Test as AnyTest};

    ghost Value = { List AnyTest };

    ghost view = { λ a. a.tests.items };
}

impl Tests {
    /// The tests of a vector. Takes no memory.
    pub fn new(tests: Vec<Test>) -> Tests
        ensures { result ≡ tests.items }
    {
        Tests { tests }
    }

    /// The tests as a slice. Takes no memory.
    pub fn as_slice(&self) -> &[Test]
        ensures { result.now ≡ self.now }
    {
        self.tests.as_slice()
    }
}
