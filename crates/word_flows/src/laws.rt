ghost use Rattle.std.specs.Prelude.{ℕ, List};
ghost use Rattle.fixed_interval.specs.Ends.{Ends};
ghost use Rattle.hyper_model.specs.declared.parts.PlanParts.{PlanParts};
ghost use Rattle.hyper_model.specs.Plans.{IsAccepted};
ghost use Rattle.hyper_model.specs.Solutions.{IsSolution};
ghost use Rattle.busy_words.specs.Order.{WordOrder};
ghost use Rattle.busy_words.specs.WeightParts.{EnclosesSolution};
ghost use Rattle.word_flows.specs.CertifiedWeights.{AreCertifiedWeights};

/// Weights of a plan that have a certificate enclose every solution of it, up to one common factor, however they were found.
///
/// It answers nothing: its contract is the theorem.
pub fn law_certified_weights()
    ensures { (p : PlanParts) → IsAccepted p → (order : WordOrder) (items : List Ends) → AreCertifiedWeights p order items
        → (xs : List ℕ) (z : ℕ) → IsSolution p xs z → EnclosesSolution p order items xs z }
{}
