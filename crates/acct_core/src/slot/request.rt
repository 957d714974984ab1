//! The events of a request: what is added level by level, and what is subtracted again.
ghost use Rattle.std.specs.Prelude.{◌≡◌, ◌<◌, ◌≤◌, IfOk, OnErr};
ghost use Rattle.mem_model.specs.Reservation as reservation;
ghost use Rattle.acct_core.specs.Effects as effects;
ghost use Rattle.acct_core.specs.Effects.{begin_effect, down_effect, release_effect, undo_effect, up_effect};
ghost use Rattle.acct_core.specs.Phases as phases;
ghost use Rattle.acct_core.specs.Slots.{CanBegin, CanFall, CanRise, HasEffect, HasNoEffect};
ghost use Rattle.acct_core.specs.Stages.{levels_ahead, phase_of};

use crate::level_step::LevelStep;
use crate::not_now::NotNow;
use crate::row::Row;
use crate::slot::Slot;
use crate::stage::Stage;
use crate::step::Step;
use crate::told::Told;
use mem_model::beyond_reservation;
use mem_num::{AllocId, MAX_RESERVATION};

/// What a step tells.
fn told_step(step: LevelStep, last: bool) -> Told
    ensures { result ≡ effects.told_step step last }
{
    Told::Step(Step {
        node: AllocId(step.level),
        old: step.old,
        amount: step.amount,
        limit: step.limit,
        last,
    })
}

/// The step that adds or subtracts an amount at a row.
fn step_at(level: u32, row: &Row, amount: u64) -> LevelStep
    ensures { result ≡ effects.step_at level row.now amount }
{
    LevelStep {
        level,
        old: row.held,
        amount,
        limit: row.limit,
    }
}

/// The parent, and how much more it counts once the row's held number has risen from `low` to `high`, if that is anything.
fn passed(row: &Row, low: u64, high: u64) -> Option<(u32, u64)>
    ensures { result ≡ effects.passed row.now.shape.parent (reservation.beyond_reservation row.now.shape.reservation low high) }
{
    let amount = beyond_reservation(row.shape.reservation, low, high);
    match row.shape.parent {
        Some(parent) if amount > 0 => Some((parent, amount)),
        _ => None,
    }
}

/// Whether some step went past its limit.
fn any_past(steps: &[LevelStep]) -> bool
    ensures { result ≡ phases.any_past steps.now }
{
    steps.iter().any(|step| u128::from(step.limit) < u128::from(step.old) + u128::from(step.amount))
}

/// Where a request stands that has no further level.
fn ended(size: u64, forced: bool, steps: &[LevelStep]) -> Stage
    ensures phase { phase_of result steps.now ≡ effects.ended size forced steps.now }
    ensures ended { levels_ahead result ≡ 0 }
{
    if !forced && any_past(steps) {
        Stage::Failed { size, forced }
    } else {
        Stage::Held { size, forced }
    }
}

impl Slot {
    /// Begins a request of a size that may be asked for.
    pub(super) fn begin(&mut self, size: u64, force: bool, row: &mut Row) -> Result<Told, NotNow>
        requires { CanBegin self.old.stage self.old.node }
        ensures ok { IfOk result (λ told. HasEffect (begin_effect size force) self.old row.old told self.new row.new) }
        ensures not_now { OnErr result (HasNoEffect (begin_effect size force) self.old row.old) }
        ensures unchanged { OnErr result ((self.new ≡ self.old) × (row.new ≡ row.old)) }
    {
        if self.stage != Stage::In || self.under.is_some() || size == 0 || size > MAX_RESERVATION {
            return Err(NotNow);
        }
        self.steps.clear();
        self.stage = Stage::Up {
            size,
            next: self.node,
            pending: size,
            forced: force,
        };
        Ok(Told::Began)
    }

    /// Adds what is pending at the next level, and goes on to the parent by what the parent counts more.
    pub(super) fn up(&mut self, row: &mut Row) -> Result<Told, NotNow>
        requires { CanRise self.old.stage row.old }
        ensures ok { IfOk result (λ told. HasEffect up_effect self.old row.old told self.new row.new) }
        ensures not_now { OnErr result (HasNoEffect up_effect self.old row.old) }
        ensures unchanged { OnErr result ((self.new ≡ self.old) × (row.new ≡ row.old)) }
    {
        let Stage::Up {
            size,
            next,
            pending,
            forced,
        } = self.stage
        else {
            return Err(NotNow);
        };
        let step = step_at(next, row, pending);
        let low = row.held;
        let high = low + pending;
        let further = passed(row, low, high);
        row.held = high;
        self.steps.push(step).unwrap();
        self.stage = match further {
            Some((parent, amount)) => Stage::Up {
                size,
                next: parent,
                pending: amount,
                forced,
            },
            None => ended(size, forced, self.steps.as_slice()),
        };
        Ok(told_step(step, further.is_none()))
    }

    /// Turns a failed request round.
    pub(super) fn undo(&mut self, row: &mut Row) -> Result<Told, NotNow>
        ensures ok { IfOk result (λ told. HasEffect undo_effect self.old row.old told self.new row.new) }
        ensures not_now { OnErr result (HasNoEffect undo_effect self.old row.old) }
        ensures unchanged { OnErr result ((self.new ≡ self.old) × (row.new ≡ row.old)) }
    {
        let Stage::Failed { size, .. } = self.stage else {
            return Err(NotNow);
        };
        self.stage = Stage::Down {
            size,
            next: self.node,
            pending: size,
        };
        Ok(Told::Turned)
    }

    /// Turns a charge that is held round, if no child stands on it.
    pub(super) fn release(&mut self, row: &mut Row) -> Result<Told, NotNow>
        ensures ok { IfOk result (λ told. HasEffect release_effect self.old row.old told self.new row.new) }
        ensures not_now { OnErr result (HasNoEffect release_effect self.old row.old) }
        ensures unchanged { OnErr result ((self.new ≡ self.old) × (row.new ≡ row.old)) }
    {
        let Stage::Held { size, .. } = self.stage else {
            return Err(NotNow);
        };
        if self.under.is_some() {
            return Err(NotNow);
        }
        self.stage = Stage::Down {
            size,
            next: self.node,
            pending: size,
        };
        Ok(Told::Turned)
    }

    /// Subtracts what is pending at the next level, and goes on to the parent by what the parent counts less.
    pub(super) fn down(&mut self, row: &mut Row) -> Result<Told, NotNow>
        requires { CanFall self.old.stage row.old }
        ensures ok { IfOk result (λ told. HasEffect down_effect self.old row.old told self.new row.new) }
        ensures not_now { OnErr result (HasNoEffect down_effect self.old row.old) }
        ensures unchanged { OnErr result ((self.new ≡ self.old) × (row.new ≡ row.old)) }
    {
        let Stage::Down {
            size,
            next,
            pending,
        } = self.stage
        else {
            return Err(NotNow);
        };
        let step = step_at(next, row, pending);
        let high = row.held;
        let low = high - pending;
        let back = passed(row, low, high);
        row.held = low;
        self.stage = match back {
            Some((parent, amount)) => Stage::Down {
                size,
                next: parent,
                pending: amount,
            },
            None => Stage::In,
        };
        Ok(told_step(step, back.is_none()))
    }
}
