//! What follows from the rules of sending, and from the measures of a plan. The calls answer nothing: each one's contract is
//! a theorem.
ghost use Rattle.std.specs.Prelude.{◌≡◌, List};
ghost use Rattle.hyper_model.specs.Measures.{ContainsSolutions};
ghost use Rattle.hyper_model.specs.Plans.{IsAccepted};
ghost use Rattle.hyper_model.specs.declared.kinds.Enclosed.{Enclosed};
ghost use Rattle.hyper_model.specs.declared.parts.PlanParts.{PlanParts};
ghost use Rattle.plan_solver.specs.Enclosures.{IsEnclosureOf};
ghost use Rattle.day_replay.specs.Days.{IsDayOf};
ghost use Rattle.day_replay.specs.Sends.{HasSends, StandsForDay};
ghost use Rattle.day_replay.specs.Texts.{printed_items};
ghost use Rattle.day_replay.specs.declared.day_list.DayRecord.{DayRecord};
ghost use Rattle.day_replay.specs.declared.played_list.Send.{Send};

/// For each day of a plan the rules give one list of sends, and no other.
pub fn law_sends()
    ensures exists { (p : PlanParts) (day : List DayRecord) → IsDayOf p day → HasSends p day }
    ensures alone { (p : PlanParts) (day : List DayRecord) → IsDayOf p day → (sends others : List Send)
        → StandsForDay p day sends → StandsForDay p day others → others ≡ sends }
{}

/// The ends that the text of a replayed day has of the model contain its measures, for every solution of the plan.
pub fn law_model_ends()
    ensures { (p : PlanParts) → IsAccepted p → (items : List Enclosed) → IsEnclosureOf p items
        → ContainsSolutions p (printed_items p items) }
{}
