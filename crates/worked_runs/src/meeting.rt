use crate::cases::run;
use fixed_interval::Iv;
use hypercube_cli::Outcome;
use rate_matrix::{Gate, OpenGate};
use std::sync::atomic::{AtomicBool, Ordering};
use std::test::Fail;
use worked_plans::THREE_UNITS;

/// A gate at which the first cell of row 4 and that of row 6 look for each other. Where the full one of eight words
/// goes, the rows 4, 5 and 6 change, in two chunks for two workers.
#[derive(Drop)]
struct Meeting {
    looks: u32,
    fourth_there: AtomicBool,
    sixth_there: AtomicBool,
    fourth_saw: AtomicBool,
    sixth_saw: AtomicBool,
}

impl Meeting {
    fn of(looks: u32) -> Meeting {
        Meeting {
            looks,
            fourth_there: AtomicBool::new(false),
            sixth_there: AtomicBool::new(false),
            fourth_saw: AtomicBool::new(false),
            sixth_saw: AtomicBool::new(false),
        }
    }

    fn arrive(&self, mine: &AtomicBool, other: &AtomicBool, saw: &AtomicBool) {
        if mine.swap(true, Ordering::SeqCst) {
            return;
        }
        for _ in 0..self.looks {
            if other.load(Ordering::SeqCst) {
                saw.store(true, Ordering::SeqCst);
                return;
            }
        }
    }

    fn both_saw(&self) -> bool {
        self.fourth_saw.load(Ordering::SeqCst) && self.sixth_saw.load(Ordering::SeqCst)
    }
}

impl Gate for Meeting {
    fn cell(&self, place: usize, row: usize, old: Iv, into: Iv, part: Iv, cap: u64) -> Iv {
        if row == 4 {
            self.arrive(&self.fourth_there, &self.sixth_there, &self.fourth_saw);
        }
        if row == 6 {
            self.arrive(&self.sixth_there, &self.fourth_there, &self.sixth_saw);
        }
        OpenGate.cell(place, row, old, into, part, cap)
    }
}

/// Two workers meet in one elimination. One does not meet itself.
#[test]
fn workers_of_one_elimination_meet(rt: HostRuntime) -> Result<(), Fail> {
    for (line, looks, meet) in [
        ("solve a.csv --workers 2", 100_000_000, true),
        ("solve a.csv --workers 1", 1000, false),
    ] {
        let gate = Meeting::of(looks);
        let (got, _) = run(&rt, rt.alloc(), line, THREE_UNITS.as_bytes(), &gate)?;
        assert_eq!(rt; got, Outcome::Done);
        assert_eq!(rt; gate.both_saw(), meet, "{line}");
    }
    Ok(())
}
