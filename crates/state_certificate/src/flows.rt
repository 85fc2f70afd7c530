ghost use Rattle.std.specs.Prelude.{◌≡◌, ℕ, ◌*◌, ◌^◌, ◌<◌, ◌≤◌};
ghost use Rattle.hyper_model.specs.Solutions.{mass_in};
ghost use Rattle.hyper_model.specs.Sums.{sum_below};
ghost use Rattle.state_certificate.specs.Certificates.{inflow as inflow_of};
ghost use Rattle.state_certificate.specs.Masses.{AreMasses};

/// The flows of a table of rates between states, numbered from 0, as whole numbers.
///
/// A table answers sums over its rates, so that one with few neighbours a state need not go through all others.
pub trait Flows {
    ghost states: { Self → ℕ };

    ghost rates: { Self → ℕ → ℕ → ℕ };

    /// How many states there are.
    fn size(&self) -> usize
        ensures { result ≡ states self.now };

    /// The flow into a state: the sum, over all states, of the mass there times the rate from there.
    fn inflow(&self, masses: &[u64], state: usize) -> u128
        requires masses { AreMasses (states self.now) (2 ^ 62) masses.now }
        requires state { state < states self.now }
        ensures flow { result ≡ inflow_of (states self.now) (rates self.now) (mass_in masses.now) state }
        ensures most { result ≤ 2 ^ 116 };

    /// The sum of the rates out of a state.
    fn leaving(&self, state: usize) -> u64
        requires { state < states self.now }
        ensures rate { result ≡ sum_below (states self.now) (rates self.now state) }
        ensures most { result ≤ 2 ^ 54 };

    /// Brings masses nearer to a solution, in a way that the table knows. Nothing is promised of them.
    fn improve(&self, masses: &mut [u64])
        requires { AreMasses (states self.now) (2 ^ 61) masses.old }
        ensures { AreMasses (states self.now) (2 ^ 61) masses.new };
}
