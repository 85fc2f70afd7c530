//! Bounds of the stationary masses of a chain by a certificate.
//!
//! Masses are guessed in any way, and then it is checked state by state, in whole numbers, that the low ones are a
//! sub-solution and the high ones a super-solution of the balance equations at all states but one. By the discrete maximum
//! principle every solution lies between them, up to one common factor. So the guess needs no proof: only the check is
//! trusted, and it is proved.
#![tactic(auto)]

mod checking;
mod flows;
mod laws;
mod masses;
mod pace;
mod room;
mod settling;
mod solving;

pub use checking::is_certificate;
pub use flows::Flows;
pub use laws::law_certificate;
pub use solving::bound_solutions;
