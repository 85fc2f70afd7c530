use crate::cases::run;
use fixed_interval::Iv;
use hypercube_cli::Outcome;
use rate_matrix::{Gate, OpenGate};
use std::sync::atomic::{AtomicBool, AtomicU64, Ordering};
use std::test::Fail;
use std::thread::{Threads, available_parallelism};

const STUDY: &[u8] = b"plans = [\"two.csv\", \"two.csv\"]\nmeasures = [\"loss\"]\n";

/// A gate at which each cell of one plan waits for the like-numbered cell of the other, until a wait has failed.
#[derive(Drop)]
struct InStep {
    looks: u32,
    first: AtomicU64,
    second: AtomicU64,
    failed: AtomicBool,
}

impl InStep {
    fn of(looks: u32) -> InStep {
        InStep {
            looks,
            first: AtomicU64::new(0),
            second: AtomicU64::new(0),
            failed: AtomicBool::new(false),
        }
    }

    fn step(&self, mine: &AtomicU64, other: &AtomicU64) {
        let count = mine.load(Ordering::SeqCst).wrapping_add(1);
        mine.store(count, Ordering::SeqCst);
        if !self.failed.load(Ordering::SeqCst) && !self.reaches(other, count) {
            self.failed.store(true, Ordering::SeqCst);
        }
    }

    fn reaches(&self, other: &AtomicU64, count: u64) -> bool {
        for _ in 0..self.looks {
            if other.load(Ordering::SeqCst) >= count {
                return true;
            }
        }
        false
    }

    fn had_both(&self) -> bool {
        self.first.load(Ordering::SeqCst) > 0 && self.second.load(Ordering::SeqCst) > 0
    }

    fn has_failed(&self) -> bool {
        self.failed.load(Ordering::SeqCst)
    }
}

impl Gate for InStep {
    fn cell(&self, place: usize, row: usize, old: Iv, into: Iv, part: Iv, cap: u64) -> Iv {
        match place {
            0 => self.step(&self.first, &self.second),
            _ => self.step(&self.second, &self.first),
        }
        OpenGate.cell(place, row, old, into, part, cap)
    }
}

/// Two workers go in step through the whole study. One solves a plan after the other, so a wait fails.
#[test]
fn plans_of_a_study_go_in_step(rt: HostRuntime) -> Result<(), Fail> {
    for (line, looks, fails) in [
        ("compare s.toml --workers 2", 100_000_000, false),
        ("compare s.toml --workers 1", 1000, true),
    ] {
        let gate = InStep::of(looks);
        let (got, _) = run(&rt, rt.alloc(), line, STUDY, &gate)?;
        assert_eq!(rt; got, Outcome::Done);
        assert!(rt; gate.had_both());
        assert_eq!(rt; gate.has_failed(), fails, "{line}");
    }
    Ok(())
}

/// Sites are shared out among as many workers as there are processors, so they go in step if there are two or more.
#[test]
fn sites_of_a_unit_go_in_step(rt: HostRuntime) -> Result<(), Fail> {
    let gate = InStep::of(100_000_000);
    let (got, _) = run(&rt, rt.alloc(), "sweep two.csv B travel", b"", &gate)?;
    assert_eq!(rt; got, Outcome::Done);
    assert!(rt; gate.had_both());
    assert_eq!(rt; gate.has_failed(), has_one_processor(&rt));
    Ok(())
}

fn has_one_processor<R: Threads>(rt: &R) -> bool {
    match available_parallelism(rt) {
        Ok(count) => count.get() == 1,
        Err(_) => false,
    }
}
