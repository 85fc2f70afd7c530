ghost use Rattle.std.specs.Prelude.{◌≡◌, ℕ, ◌*◌, ◌^◌, ◌<◌, ◌≤◌, IfOk, length};
ghost use Rattle.fixed_interval.specs.Ends.{exact_ends};
ghost use Rattle.rate_matrix.specs.Bands.{IsKept};
ghost use Rattle.rate_matrix.specs.Rows.{part_in};

use crate::refusal::TimesRefusal;
use fixed_interval::{Iv, Wide};
use rate_matrix::{OpenGate, RateMatrix, WordChain};
use std::alloc::{AllocError, Global};
use std::thread::Threads;
use std::time::{Clock, Instant};

/// How many entries eliminations change, and how long the changes take.
#[derive(Clone, Copy, Debug)]
pub(crate) struct Updates {
    pub(crate) changed: u64,
    pub(crate) nanoseconds: u128,
}

/// Eliminates all states but the first, and looks at the clock around each change of the rows. It answers the entry
/// from the first state to the second as well.
pub(crate) fn time_rows<R: Threads + Sync + Clock>(
    rt: &R,
    alloc: Global,
    chain: &WordChain,
    workers: u32,
) -> Result<(Updates, Iv), TimesRefusal>
    requires some { 1 ≤ workers }
    requires most { workers ≤ 16 }
{
    let mut m = RateMatrix::packed(alloc, chain)?;
    let mut changed: u64 = 0;
    let mut nanoseconds: u128 = 0;
    for _ in 1..m.size() {
        let update = time_update(rt, alloc, &mut m, workers)?;
        changed = changed.saturating_add(update.changed);
        nanoseconds = nanoseconds.saturating_add(update.nanoseconds);
    }
    let updates = Updates {
        changed,
        nanoseconds,
    };
    let _size = m.size();
    Ok((updates, m.entry(0, 1)))
}

// The next elimination. The clock runs while the rows change, and not while their changes are prepared or counted.
fn time_update<R: Threads + Sync + Clock>(
    rt: &R,
    alloc: Global,
    m: &mut RateMatrix,
    workers: u32,
) -> Result<Updates, TimesRefusal>
    requires some { 1 ≤ workers }
    requires most { workers ≤ 16 }
{
    if !m.is_packed() || m.alive() < 2 {
        return Err(TimesRefusal::NothingLeft);
    }
    let state = m.alive() - 1;
    let parts = parts_of(alloc, m, state)?;
    let changed = changed_by(m, state, &parts);
    m.retire();
    let start = Instant::now(rt)?;
    m.update_rows(rt, &parts, workers, &OpenGate, 0);
    let nanoseconds = start.elapsed(rt)?.as_nanos();
    Ok(Updates {
        changed,
        nanoseconds,
    })
}

// What of the way out of this state goes to each before it.
fn parts_of(alloc: Global, m: &RateMatrix, state: usize) -> Result<Vec<Iv>, AllocError>
    requires { state < m.now.size }
    ensures count { IfOk result (λ parts. length parts.items ≡ state) }
    ensures kept { IfOk result (λ parts. (j : ℕ) → j < state → ¬ IsKept m.now state j
        → part_in parts.items j ≡ exact_ends 0) }
{
    let all = m.total_leaving(state);
    let mut parts = Vec::new(alloc);
    for j in 0..state {
        parts.push(part_of(m, state, j, all))?;
    }
    Ok(parts)
}

fn part_of(m: &RateMatrix, state: usize, j: usize, all: Wide) -> Iv
    requires state { state < m.now.size }
    requires before { j < state }
    requires in_range { all.hi ≤ state * 2 ^ 62 }
    ensures kept { ¬ IsKept m.now state j → result ≡ exact_ends 0 }
{
    let _size = m.size();
    if !m.is_kept(state, j) {
        return Iv::exact(0);
    }
    let entry = m.entry(state, j).wide();
    let low = all.lo().saturating_sub(entry.lo());
    let high = all.hi().saturating_sub(entry.hi());
    entry.part_of(Wide::new(low, high.max(low)))
}

// To each state before it that the state leads to, an entry from each other one that leads to it changes.
fn changed_by(m: &RateMatrix, state: usize, parts: &[Iv]) -> u64
    requires state { state < m.now.size }
    requires parts { length parts.now ≡ state }
{
    let mut rows: u64 = 0;
    let mut columns: u64 = 0;
    let mut both: u64 = 0;
    for (i, part) in parts.iter().enumerate() {
        let leads_to = m.entry(i, state).hi() != 0;
        let is_led_to = part.hi() != 0;
        rows = rows.saturating_add(u64::from(leads_to));
        columns = columns.saturating_add(u64::from(is_led_to));
        both = both.saturating_add(u64::from(leads_to && is_led_to));
    }
    rows.saturating_mul(columns).saturating_sub(both)
}
