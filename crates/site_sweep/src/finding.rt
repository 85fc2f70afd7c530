ghost use Rattle.std.specs.Prelude.{◌≡◌, ◌<◌, IfOk};
ghost use Rattle.std.specs.Str.{bytes_eq};
ghost use Rattle.hyper_model.specs.Plans.{unit_name, units};
ghost use Rattle.site_sweep.specs.Finding.{unit_of};

use crate::SweepRefusal;
use hyper_model::Plan;

/// The unit of this name, counted from 0.
pub fn find_unit(plan: &Plan, name: &[u8]) -> Result<u8, SweepRefusal>
    ensures unit { result ≡ unit_of plan.now name.now }
    ensures within { IfOk result (λ unit. unit < units plan.now) }
{
    for n in 0..plan.units() {
        if has_name(plan, n, name) {
            return Ok(n as u8);
        }
    }
    Err(SweepRefusal::SweepUnit)
}

/// Whether unit n has this name.
fn has_name(plan: &Plan, n: usize, name: &[u8]) -> bool
    requires { n < units plan.now }
    ensures { result ≡ bytes_eq (unit_name plan.now n) name.now }
{
    plan.unit(n).name.text().as_bytes() == name
}
