use hyper_model::Plan;
use plan_solver::{enclose, enclose_certified};
use std::alloc::Global;
use std::io;
use std::time::{Clock, Instant};

/// The nanoseconds of finding all measures of a plan by each method, and whether there is a certificate.
#[derive(Clone, Copy, Debug)]
pub(crate) struct MethodTimes {
    pub(crate) elimination: u128,
    pub(crate) certificate: u128,
    pub(crate) is_certified: bool,
}

/// Finds all measures of a plan by one method after the other, each by one worker, and looks at the clock.
pub(crate) fn time_methods(rt: &impl Clock, alloc: Global, plan: &Plan) -> io::Result<MethodTimes> {
    let start = Instant::now(rt)?;
    enclose(alloc, plan)?;
    let elimination = start.elapsed(rt)?.as_nanos();
    let middle = Instant::now(rt)?;
    let certified = enclose_certified(alloc, plan)?;
    let certificate = middle.elapsed(rt)?.as_nanos();
    Ok(MethodTimes {
        elimination,
        certificate,
        is_certified: certified.is_some(),
    })
}
