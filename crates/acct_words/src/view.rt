//! What a token shows.

use std::marker::Model;

/// The view of a token, which contracts see as a `View` of specs/. No value of it is made.
#[derive(Drop)]
pub struct Shown;

impl Model for Shown {
    ghost use Rattle.acct_words.specs.Views.{View};
    ghost use Rattle.acct_words.specs.Bodies.{spent};

    ghost Value = { View };

    ghost view = { λ _. spent };
}
