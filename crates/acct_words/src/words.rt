//! The accounts table, and its calls.
ghost use Rattle.std.specs.Prelude.{◌≡◌, ◌+◌, ◌^◌, ◌<◌, ◌≤◌, [], ◌∷◌, ◌++◌, length, All, IfOk, IfErr, IsTrue};
ghost use Rattle.mem_num.specs.declared.bounds.TheConstants.{LARGEST, MOST_NUMBERS, MOST_ALLOCATORS};
ghost use Rattle.acct_words.specs.CallHistories.{
  HasBeenRefused,
  HasCharged,
  HasDischarged,
  HasForced,
  HasLoaded,
  IsWithinWorstCase,
  SplitsOff,
  TakesIn,
};
ghost use Rattle.acct_words.specs.Entries.StepKind.{ForgetChunk, LoadWord};
ghost use Rattle.acct_words.specs.Entries.{peak_shown};
ghost use Rattle.acct_words.specs.Headrooms.{HasSeen, headroom_on, is_over_on};
ghost use Rattle.acct_words.specs.Openings.{IsFixedTree, IsWithinBudget, held_uncharged};
ghost use Rattle.acct_words.specs.Places.{held_word, peak_word};
ghost use Rattle.acct_words.specs.Returns.{HasGivenAllBack};
ghost use Rattle.acct_words.specs.Tokens.{IsElsewhere, is_charged, no_history, shown_history, without};

use crate::budget::Budget;
use crate::chunk_seat::ChunkSeat;
use crate::fixed::{Fixed, Opening};
use crate::headroom::see;
use crate::opening::opening_words;
use crate::pass::Pass;
use crate::rule::{AccountsRule, Said, Together};
use crate::steps::{forget, join, look, pay, read_peak};
use crate::view::Shown;
use crate::{charge, force, release};
use atomic_table::Table;
use mem_num::{AllocId, Full, NoMemory};
use std::alloc::Global;
use std::marker::Model;

/// An accounts table: the held bytes of a tree that is given at opening, as atomic counters without a lock.
#[derive(Drop)]
pub struct Words {
    table: Table<Said, Shown, Opening, AccountsRule, Global>,
    opening: Opening,
}

impl Model for Words {
    ghost use Rattle.std.specs.Prelude.{◌≡◌, ◌≤◌, length};
    ghost use Rattle.mem_num.specs.declared.bounds.TheConstants.{MOST_ALLOCATORS};
    ghost use Rattle.acct_words.specs.Places.{word_count};
    ghost use Rattle.acct_words.specs.Rule.{start_of};
    ghost use Rattle.acct_words.specs.Tokens.{AccountsTable};

    ghost Value = { AccountsTable };

    ghost view = { λ words. record { id = words.table.shared.table_id; start = start_of words.opening } };

    ghost invariant = { λ words. (words.table.shared.key ≡ words.opening)
        × (words.table.shared.table_id.words ≡ word_count (length words.opening.nodes.items))
        × (length words.opening.nodes.items ≤ MOST_ALLOCATORS) };
}

impl Words {
    /// Opens a table over a tree that is given, and gives the first caller token, with the whole budget. What the allocators hold are the
    /// reservations of their children. Limits aren't tested.
    pub fn open_fixed(
        alloc: Global,
        nodes: &[Fixed],
        budget: Budget,
    ) -> Result<(Words, Pass), NoMemory>
        requires tree { IsFixedTree nodes.now }
        requires budget { IsWithinBudget budget }
        ensures opened { IfOk result (λ opened. opened.0.start
            ≡ record { tree = nodes.now; bytes = budget.bytes; turns = budget.turns }) }
        ensures pass { IfOk result (λ opened. opened.1
            ≡ record { table = opened.0; history = no_history; budget = budget }) }
    {
        let words = opening_words(alloc, nodes)?;
        let Ok(nodes) = nodes.to_vec(alloc) else {
            return Err(NoMemory);
        };
        let opening = Opening { nodes, budget };
        let Ok((table, token)) = Table::of_words(alloc, words.as_slice(), &opening) else {
            return Err(NoMemory);
        };
        Ok((Words { table, opening }, Pass { token, budget }))
    }

    /// Charges a new chunk at an allocator, after `Accountant.allocateBytes`, and spends one turn and the bytes whatever it answers.
    /// Waits for nobody, and takes no memory.
    pub fn charge(&self, pass: &mut Pass, at: AllocId, size: u64) -> Result<ChunkSeat, Full>
        requires table { pass.old.table ≡ self.now }
        requires at { at.0 < length self.now.start.tree }
        requires size { (1 ≤ size) × (size ≤ LARGEST) }
        requires budget { (1 ≤ pass.old.budget.turns) × (size ≤ pass.old.budget.bytes) }
        ensures table { pass.new.table ≡ self.now }
        ensures spent { (pass.new.budget.bytes + size ≡ pass.old.budget.bytes)
            × (pass.new.budget.turns + 1 ≡ pass.old.budget.turns) }

        // It succeeds only where each level that it touched stayed within its limit.
        ensures charged { IfOk result (λ chunk.
            HasCharged at.0 size chunk.number pass.old.history pass.new.history) }
        ensures chunk { IfOk result (λ chunk. (chunk.table ≡ self.now) × (chunk.size ≡ size)
            × (chunk.charged ≡ at.0 ∷ [])
            × (chunk.history ≡ shown_history pass.new.history)) }

        // A refusal tells what its own step found at the lowest level past its limit, and leaves no charge.
        ensures full { IfErr result (λ full.
            HasBeenRefused at.0 size pass.old.history pass.new.history full) }
        ensures past { IfErr result (λ full. full.limit < full.held + full.amount) }
        ensures bound { IfErr result (λ full.
            IsWithinWorstCase self.now.start pass.new.history (full.held + full.amount)) }
    {
        let charged = charge::charge(&self.table.shared, &mut pass.token, at.0 as usize, size);
        pass.budget.bytes -= size;
        pass.budget.turns -= 1;
        match charged {
            Ok((number, token)) => Ok(ChunkSeat {
                token,
                number: number as u32,
                size,
            }),
            Err(full) => Err(full),
        }
    }

    /// Charges a chunk a second time, at another allocator, after `Accountant.forceAllocate`, and answers whether every level stayed
    /// within its limit. Waits for nobody, and takes no memory.
    pub fn force(&self, seat: &mut ChunkSeat, at: AllocId) -> bool
        requires table { seat.old.table ≡ self.now }
        requires at { at.0 < length self.now.start.tree }
        requires elsewhere { IsElsewhere at.0 seat.old.charged }
        ensures chunk { (seat.new.table ≡ self.now) × (seat.new.number ≡ seat.old.number)
            × (seat.new.size ≡ seat.old.size) }
        ensures charged { seat.new.charged ≡ at.0 ∷ seat.old.charged }
        ensures forced { HasForced at.0 seat.old.size seat.old.history seat.new.history result }
    {
        force::force(
            &self.table.shared,
            &mut seat.token,
            at.0 as usize,
            seat.size,
        )
        .is_none()
    }

    /// Releases a chunk's charge at an allocator, after `Accountant.releaseBytes`. Waits for nobody, and takes no memory.
    pub fn discharge(&self, seat: &mut ChunkSeat, at: AllocId)
        requires table { seat.old.table ≡ self.now }
        requires at { at.0 < length self.now.start.tree }
        requires charge { IsTrue (is_charged at.0 seat.old.charged) }
        ensures chunk { (seat.new.table ≡ self.now) × (seat.new.number ≡ seat.old.number)
            × (seat.new.size ≡ seat.old.size) }
        ensures charged { seat.new.charged ≡ without at.0 seat.old.charged }
        ensures released { HasDischarged at.0 seat.old.size seat.old.history seat.new.history }
    {
        release::release(
            &self.table.shared,
            &mut seat.token,
            at.0 as usize,
            seat.size,
        );
    }

    /// What an allocator holds, by a load of its own: true at the moment of that load. Waits for nobody, and takes no memory.
    pub fn held(&self, pass: &mut Pass, at: AllocId) -> u64
        requires table { pass.old.table ≡ self.now }
        requires at { at.0 < length self.now.start.tree }
        ensures pass { (pass.new.table ≡ self.now) × (pass.new.budget ≡ pass.old.budget) }
        ensures loaded { HasLoaded (held_word at.0) result pass.old.history pass.new.history }
        ensures small { result < 2 ^ 63 }
        ensures bound { IsWithinWorstCase self.now.start pass.new.history result }

        // One that made all requests, and gave all of them back, finds the reservations alone.
        ensures uncharged { HasGivenAllBack self.now.start pass.old
            → result ≡ held_uncharged self.now.start.tree at.0 }
    {
        look(&self.table.shared, &mut pass.token, at.0 as usize)
    }

    /// The peak of an allocator since the opening, by a load of its own: true at the moment of that load. A charge that succeeds and a
    /// force raise it, and no release lowers it. Waits for nobody, and takes no memory.
    pub fn peak(&self, pass: &mut Pass, at: AllocId) -> u64
        requires table { pass.old.table ≡ self.now }
        requires at { at.0 < length self.now.start.tree }
        ensures pass { (pass.new.table ≡ self.now) × (pass.new.budget ≡ pass.old.budget) }
        ensures loaded { HasLoaded (peak_word at.0) result pass.old.history pass.new.history }
        ensures small { result < 2 ^ 63 }
        ensures bound { IsWithinWorstCase self.now.start pass.new.history result }

        // It has reached all that the caller made or was shown of it.
        ensures reached { All (λ entry. peak_shown at.0 entry ≤ result)
            (pass.old.history.own ++ pass.old.history.observed) }
    {
        read_peak(&self.table.shared, &mut pass.token, at.0 as usize)
    }

    /// How many bytes more an allocator could be given, by its limit and by those above it; less than nothing where it or one above it
    /// holds more than its limit. After `BaseAllocator.getHeadroom`, by separate loads, each true at its own moment. Waits for nobody, and
    /// takes no memory.
    pub fn headroom(&self, pass: &mut Pass, at: AllocId) -> i128
        requires table { pass.old.table ≡ self.now }
        requires at { at.0 < length self.now.start.tree }
        ensures pass { (pass.new.table ≡ self.now) × (pass.new.budget ≡ pass.old.budget) }
        ensures seen { HasSeen at.0 (λ levels. result ≡ headroom_on levels) pass.old.history pass.new.history }
    {
        see(&self.table.shared, &mut pass.token, at.0 as usize).0
    }

    /// Whether an allocator or one above it holds more than its limit. After `BaseAllocator.isOverLimit`, by separate loads, each true at
    /// its own moment. Waits for nobody, and takes no memory.
    pub fn over_limit(&self, pass: &mut Pass, at: AllocId) -> bool
        requires table { pass.old.table ≡ self.now }
        requires at { at.0 < length self.now.start.tree }
        ensures pass { (pass.new.table ≡ self.now) × (pass.new.budget ≡ pass.old.budget) }
        ensures seen { HasSeen at.0 (λ levels. result ≡ is_over_on levels) pass.old.history pass.new.history }
    {
        see(&self.table.shared, &mut pass.token, at.0 as usize).1
    }

    /// Joins the token of a chunk that is charged nowhere into a caller token.
    pub fn retire(&self, pass: &mut Pass, seat: ChunkSeat)
        requires tables { (pass.old.table ≡ self.now) × (seat.table ≡ self.now) }
        requires bare { seat.charged ≡ [] }
        ensures pass { (pass.new.table ≡ self.now) × (pass.new.budget ≡ pass.old.budget) }
        ensures history { TakesIn (ForgetChunk seat.size) pass.old.history seat.history pass.new.history }
    {
        let ChunkSeat { token, .. } = seat;
        self.table
            .shared
            .join_seat::<Together>(&mut pass.token, token);
        forget(&self.table.shared, &mut pass.token);
    }

    /// Splits off a caller token with a part of the budget.
    pub fn split_pass(&self, pass: &mut Pass, budget: Budget) -> Pass
        requires table { pass.old.table ≡ self.now }
        requires budget { (budget.bytes ≤ pass.old.budget.bytes) × (budget.turns ≤ pass.old.budget.turns) }
        ensures pass { (pass.new.table ≡ self.now) × (pass.new.budget.bytes + budget.bytes ≡ pass.old.budget.bytes)
            × (pass.new.budget.turns + budget.turns ≡ pass.old.budget.turns) }
        ensures history { SplitsOff pass.old.history pass.new.history }
        ensures new { result ≡ record { table = self.now; history = shown_history pass.new.history; budget = budget } }
    {
        let token = pay(
            &self.table.shared,
            &mut pass.token,
            budget.bytes,
            budget.turns,
        );
        pass.budget.bytes -= budget.bytes;
        pass.budget.turns -= budget.turns;
        Pass { token, budget }
    }

    /// Takes in another caller token, with its budget and its history.
    pub fn join_pass(&self, pass: &mut Pass, other: Pass)
        requires tables { (pass.old.table ≡ self.now) × (other.table ≡ self.now) }
        ensures pass { (pass.new.table ≡ self.now)
            × (pass.new.budget.bytes ≡ pass.old.budget.bytes + other.budget.bytes)
            × (pass.new.budget.turns ≡ pass.old.budget.turns + other.budget.turns) }
        ensures history { TakesIn LoadWord pass.old.history other.history pass.new.history }
    {
        let Pass { token, budget } = other;
        join(&self.table.shared, &mut pass.token, token);
        pass.budget.bytes += budget.bytes;
        pass.budget.turns += budget.turns;
    }
}

#[cfg(test)]
mod tests;
