//! What a tree is opened with.
ghost use Rattle.std.specs.Prelude.{◌≡◌, ◌≤◌, IfOk};
ghost use Rattle.mem_num.specs.declared.bounds.TheConstants.{MAX_LIMIT};
ghost use Rattle.acct_words.specs.declared.budget.TheConstants.{MOST_BYTES, MOST_TURNS};

use acct_words::Budget;
use mem_num::NoMemory;

/// The limit of a tree's root in bytes, and what all its callers may ask for together.
#[derive(Debug, Drop)]
pub struct Start {
    pub root_limit: u64,
    pub budget: Budget,
    pub ghost limited: { root_limit ≤ MAX_LIMIT },
    pub ghost few_bytes: { budget.bytes ≤ MOST_BYTES },
    pub ghost few_turns: { budget.turns ≤ MOST_TURNS },
}

impl Start {
    /// A start with this limit and this budget. Takes no memory yet.
    pub fn new(root_limit: u64, budget: Budget) -> Result<Start, NoMemory>
        requires limit { root_limit ≤ MAX_LIMIT }
        requires bytes { budget.bytes ≤ MOST_BYTES }
        requires turns { budget.turns ≤ MOST_TURNS }
        ensures limit { IfOk result (λ start. start.root_limit ≡ root_limit) }
        ensures budget { IfOk result (λ start. start.budget ≡ budget) }
    {
        Ok(Start { root_limit, budget })
    }
}
