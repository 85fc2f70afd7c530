use fixed_interval::Iv;
use hypercube_cli::{Command, read_words};
use rate_matrix::{Gate, OpenGate};
use std::io::IsTerminal;
use std::sync::atomic::{AtomicU64, Ordering};
use std::time::Instant;

/// The gate of the program, which says on standard error how many sites of a sweep are done.
///
/// It says so if standard error is a terminal, at most once a second, and not before the first second is over. Of other
/// commands it says nothing.
#[derive(Drop)]
pub(crate) struct Progress<'a> {
    rt: &'a HostRuntime,
    /// When the sweep began, if there is anyone to hear of it.
    start: Option<Instant>,
    /// How many sites are done.
    done: AtomicU64,
    /// How many seconds had passed when it last said so.
    said: AtomicU64,
}

impl<'a> Progress<'a> {
    /// The gate for a run with these arguments, which stand after the program's name.
    pub fn of(rt: &'a HostRuntime, arguments: &[String]) -> Progress<'a> {
        let start = if rt.stderr().is_terminal() && is_sweep(rt, arguments) {
            Instant::now(rt).ok()
        } else {
            None
        };
        Progress {
            rt,
            start,
            done: AtomicU64::new(0),
            said: AtomicU64::new(0),
        }
    }

    /// Says how many sites are done, if it has not said so in this second.
    fn say(&self, seconds: u64, done: u64) {
        let said = self.said.load(Ordering::SeqCst);
        if said < seconds && self.claim(said, seconds) {
            let sites = if done == 1 { "site is" } else { "sites are" };
            let _ = eprintln!(self.rt; "{done} {sites} done");
        }
    }

    /// Whether no other worker has said so since then.
    fn claim(&self, said: u64, seconds: u64) -> bool {
        let order = Ordering::SeqCst;
        self.said
            .compare_exchange(said, seconds, order, order)
            .is_ok()
    }
}

impl<'a> Gate for Progress<'a> {
    fn cell(&self, place: usize, row: usize, old: Iv, into: Iv, part: Iv, cap: u64) -> Iv {
        OpenGate.cell(place, row, old, into, part, cap)
    }

    fn solved(&self, _place: usize) {
        let done = self.done.fetch_add(1, Ordering::SeqCst).wrapping_add(1);
        let Some(start) = &self.start else {
            return;
        };
        if let Ok(passed) = start.elapsed(self.rt) {
            self.say(passed.as_secs(), done);
        }
    }
}

/// Whether the arguments ask for a sweep.
fn is_sweep(rt: &HostRuntime, arguments: &[String]) -> bool {
    matches!(read_words(rt.alloc(), arguments), Ok(Command::Sweep { .. }))
}
