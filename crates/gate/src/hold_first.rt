//! The hook that holds the first job back until the second has ended.

use crate::gate::Gate;
use std::sync::atomic::{AtomicBool, Ordering};
use std::thread::yield_now;

/// A schedule hook that holds job 1 back until job 2 has ended, and job 2 until job 1 has come, so that both come out only where the
/// jobs are done beside each other. Each is held for so many turns at most, and gives the processor away in each of them. Any other job
/// passes at once.
#[derive(Debug, Drop)]
pub struct HoldFirst {
    turns: u64,
    first_came: AtomicBool,
    second_ended: AtomicBool,
    first_passed: AtomicBool,
    second_passed: AtomicBool,
}

impl HoldFirst {
    /// A hook that holds nobody longer than so many turns, each of which takes a few microseconds.
    pub fn new(turns: u64) -> HoldFirst {
        HoldFirst {
            turns,
            first_came: AtomicBool::new(false),
            second_ended: AtomicBool::new(false),
            first_passed: AtomicBool::new(false),
            second_passed: AtomicBool::new(false),
        }
    }

    /// Whether both jobs came out before their turns were spent.
    pub fn saw_second(&self) -> bool {
        self.first_passed.load(Ordering::SeqCst) && self.second_passed.load(Ordering::SeqCst)
    }

    // Waits for the flag, and tells whether it was set within the turns.
    fn wait_for(&self, flag: &AtomicBool) -> bool {
        for _ in 0..self.turns {
            if flag.load(Ordering::SeqCst) {
                return true;
            }
            yield_now();
        }
        false
    }
}

impl Gate for HoldFirst {
    fn at(&self, job: u32) {
        match job {
            1 => {
                self.first_came.store(true, Ordering::SeqCst);
                let passed = self.wait_for(&self.second_ended);
                self.first_passed.store(passed, Ordering::SeqCst);
            }
            2 => {
                let passed = self.wait_for(&self.first_came);
                self.second_passed.store(passed, Ordering::SeqCst);
            }
            _ => {}
        }
    }

    fn done(&self, job: u32) {
        if job == 2 {
            self.second_ended.store(true, Ordering::SeqCst);
        }
    }
}

#[cfg(test)]
mod tests {
    use super::*;
    use std::test::Fail;
    use std::thread::join;

    // As a run does, which knows its hook by the bound alone.
    fn pass<G: Gate>(gate: &G, job: u32) {
        gate.at(job);
        gate.done(job);
    }

    #[test]
    fn jobs_beside_each_other_come_out(rt: HostRuntime) -> Result<(), Fail> {
        let gate = HoldFirst::new(20_000_000);
        let held = &gate;
        join(&rt, move || pass(held, 1), move || pass(held, 2));
        assert!(&rt; gate.saw_second());
        Ok(())
    }

    #[test]
    fn jobs_one_after_the_other_spend_their_turns(rt: HostRuntime) -> Result<(), Fail> {
        let forth = HoldFirst::new(1_000);
        pass(&forth, 1);
        pass(&forth, 2);
        assert!(&rt; !forth.saw_second());
        let back = HoldFirst::new(1_000);
        pass(&back, 2);
        pass(&back, 1);
        assert!(&rt; !back.saw_second());
        Ok(())
    }

    #[test]
    fn other_jobs_pass_at_once(rt: HostRuntime) -> Result<(), Fail> {
        let gate = HoldFirst::new(u64::MAX);
        pass(&gate, 3);
        pass(&gate, u32::MAX);
        assert!(&rt; !gate.saw_second());
        Ok(())
    }
}
