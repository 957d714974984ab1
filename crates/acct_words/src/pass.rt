//! The token of a caller.
ghost use Rattle.std.specs.Prelude.{◌≡◌};

use crate::budget::Budget;
use crate::steps::Token;
use std::marker::Model;

/// A caller token: it lets its owner charge, within what is left of its budget. It takes no memory but that, and can't be copied.
#[derive(Drop)]
pub struct Pass {
    pub(crate) token: Token,
    pub(crate) budget: Budget,
}

impl Model for Pass {
    ghost use Rattle.acct_words.specs.Tokens.{CallerToken, IsIdle, history_of};

    ghost Value = { CallerToken };

    ghost view = { λ pass. record {
      table = record { id = pass.token.table_id; start = pass.token.me.0.start };
      history = history_of pass.token.me.0;
      budget = pass.budget;
    } };

    ghost invariant = { λ pass. IsIdle pass.token.me pass.budget };
}

impl Pass {
    /// What may still be asked for.
    pub fn budget(&self) -> Budget
        ensures { result ≡ self.now.budget }
    {
        self.budget
    }
}
