//! The elimination of a chain's states in intervals (Grassmann, Taksar and Heyman 1985), and its laws.
#![tactic(auto)]

ghost use Rattle.state_reduction.specs.Laws.{BeginsSound, HoldsEverySolution, IsDetermined, MatricesBegin, StaysSound};
ghost use Rattle.rate_matrix.specs.Levels.{ZerosStay};

mod elimination;
mod parts;
mod reduction;
mod row;
mod sharing;

pub use elimination::step;
pub use reduction::{reduce, reduce_packed, reduce_rows};
pub use row::Row;

/// What an elimination leaves holds every solution of the balance equations.
///
/// The matrix is to begin as the rates of a table in one scale, with the outflows in this scale as caps, and each
/// state but the first is to have a rate to an earlier one. Then for every solution of the table each state is in
/// balance with those before it, as far as the ends of the entries that are left tell.
///
/// The proof keeps a table in whole numbers of the states that are left, which the masses of these states solve.
/// It loses its last state with each elimination, and all its rates are multiplied by one factor. The entries, times
/// the product of these factors, enclose its rates.
pub fn law_elimination()
    ensures { HoldsEverySolution }
{}

/// The ends of the entries stay in order and under the caps, and no low end falls.
///
/// So each state but the first always has entries to earlier states that sum to at least the scale.
pub fn law_soundness()
    ensures begins { BeginsSound }
    ensures stays { StaysSound }
{}

/// Entries that agree between different states agree there after any number of eliminations.
pub fn law_determined()
    ensures { IsDetermined }
{}

/// If states are sorted by levels and no entry leads past the next level, no elimination makes one that does.
pub fn law_far_zeros()
    ensures { ZerosStay }
{}

/// The matrix of a chain is as a matrix is before any elimination, with the chain's rates as the table.
pub fn law_beginning()
    ensures { MatricesBegin }
{}
