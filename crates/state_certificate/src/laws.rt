ghost use Rattle.std.specs.Prelude.{ℕ};
ghost use Rattle.state_certificate.specs.Certificates.{CertificatesBound, CertifiedEnclose, ObeysMaximumPrinciple};

/// The discrete maximum principle, and what follows of it, for every table of rates: a certificate bounds every solution,
/// and weights whose ends are one enclose every solution.
///
/// At a state where a sub-solution is largest against a super-solution, its inflow is at most its share of the other's
/// inflow; so unless this state is the reference, more would flow out of it than into it. It answers nothing: its contract
/// is the theorem.
pub fn law_certificate()
    ensures maximum { (n : ℕ) (rate : ℕ → ℕ → ℕ) → ObeysMaximumPrinciple n rate }
    ensures bounds { (n : ℕ) (rate : ℕ → ℕ → ℕ) → CertificatesBound n rate }
    ensures encloses { (n : ℕ) (rate : ℕ → ℕ → ℕ) → CertifiedEnclose n rate }
{}
