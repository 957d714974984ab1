//! The rule of the table, its splits and joins, and what each kind of step tells.

use crate::fixed::Opening;
use crate::view::Shown;
use atomic_table::{Join, Play, Shared, Split, TableRule};

/// What a token tells the rule of its own view, where a step has no number to tell it by.
#[derive(Clone, Copy)]
pub struct Said {
    pub bytes: u64,
    pub turns: u64,
}

pub struct AccountsRule;

impl TableRule<Said, Shown, Opening> for AccountsRule {
    ghost use Rattle.acct_words.specs.Rule.{IsSoundTable, first, start_of};

    ghost holds = { λ opening. IsSoundTable (start_of opening) };

    ghost first = { λ opening. first (start_of opening) };
}

pub struct Cut;

impl Split<Shown> for Cut {
    ghost use Rattle.acct_words.specs.Bodies.{left, right};

    ghost left = { left };

    ghost right = { right };
}

pub struct Together;

impl Join<Shown> for Together {
    ghost use Rattle.acct_words.specs.Bodies.{both, spent};

    ghost both = { both };

    ghost spent = { spent };
}

pub struct Drawing;

impl Play<Said, Shown> for Drawing {
    ghost use Rattle.acct_words.specs.Plays.{Draws};

    ghost then = { Draws };
}

pub struct Beginning;

impl Play<Said, Shown> for Beginning {
    ghost use Rattle.acct_words.specs.Plays.{Begins};

    ghost then = { Begins };
}

pub struct Forcing;

impl Play<Said, Shown> for Forcing {
    ghost use Rattle.acct_words.specs.Plays.{Forces};

    ghost then = { Forces };
}

pub struct Rising;

impl Play<Said, Shown> for Rising {
    ghost use Rattle.acct_words.specs.Plays.{Rises};

    ghost then = { Rises };
}

pub struct Reading;

impl Play<Said, Shown> for Reading {
    ghost use Rattle.acct_words.specs.Plays.{Reads};

    ghost then = { Reads };
}

pub struct Meeting;

impl Play<Said, Shown> for Meeting {
    ghost use Rattle.acct_words.specs.Plays.{Meets};

    ghost then = { Meets };
}

pub struct ReadingPeak;

impl Play<Said, Shown> for ReadingPeak {
    ghost use Rattle.acct_words.specs.Plays.{ReadsPeak};

    ghost then = { ReadsPeak };
}

pub struct Raising;

impl Play<Said, Shown> for Raising {
    ghost use Rattle.acct_words.specs.Plays.{Raises};

    ghost then = { Raises };
}

pub struct Looking;

impl Play<Said, Shown> for Looking {
    ghost use Rattle.acct_words.specs.Plays.{Looks};

    ghost then = { Looks };
}

pub struct Parting;

impl Play<Said, Shown> for Parting {
    ghost use Rattle.acct_words.specs.Plays.{Parts};

    ghost then = { Parts };
}

pub struct Turning;

impl Play<Said, Shown> for Turning {
    ghost use Rattle.acct_words.specs.Plays.{Turns};

    ghost then = { Turns };
}

pub struct Falling;

impl Play<Said, Shown> for Falling {
    ghost use Rattle.acct_words.specs.Plays.{Falls};

    ghost then = { Falls };
}

pub struct Forgetting;

impl Play<Said, Shown> for Forgetting {
    ghost use Rattle.acct_words.specs.Plays.{Forgets};

    ghost then = { Forgets };
}

pub struct Counting;

impl Play<Said, Shown> for Counting {
    ghost use Rattle.acct_words.specs.Plays.{Counts};

    ghost then = { Counts };
}

pub struct Paying;

impl Play<Said, Shown> for Paying {
    ghost use Rattle.acct_words.specs.Plays.{Pays};

    ghost then = { Pays };
}

pub type Counters = Shared<Said, Shown, Opening, AccountsRule>;
