ghost use Rattle.std.specs.Prelude.{◌≡◌, ◌*◌, ◌<◌, ◌≤◌};
ghost use Rattle.hyper_model.specs.declared.TheConstants.{MOST_ATOMS, MOST_RATE};
ghost use Rattle.hyper_model.specs.Plans.{atoms, district_calls, is_inside as is_inside_of};

use hyper_model::Plan;

/// Whether the atom is in this unit's district.
pub fn is_inside(plan: &Plan, district: usize, atom: usize) -> bool
    requires { atom < atoms plan.now }
    ensures { result ≡ is_inside_of plan.now district atom }
{
    usize::from(plan.atom(atom).district) == district
}

/// The rate of the calls of this unit's district, per period.
pub fn calls_inside(plan: &Plan, district: usize) -> u64
    ensures calls { result ≡ district_calls plan.now district }
    ensures most { result ≤ MOST_ATOMS * MOST_RATE }
{
    let mut total = 0;
    for atom in 0..plan.atoms() {
        if is_inside(plan, district, atom) {
            total += u64::from(plan.atom(atom).rate);
        }
    }
    total
}
