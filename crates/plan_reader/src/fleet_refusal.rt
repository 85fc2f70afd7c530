ghost use Rattle.std.specs.Prelude.{◌≡◌};

use crate::PlanRefusal;
use plan_text::TextRefusal;
use std::alloc::AllocError;
use text_lines::RefusalCode;
use thiserror::Error;

/// Why a text gives no fleet.
///
/// Records are counted from 1.
#[derive(Clone, Copy, Debug, PartialEq, Eq, Error)]
pub enum FleetRefusal {
    /// What a plan is refused for too.
    #[error("{0}")]
    Plan(PlanRefusal),
    /// This record gives the crews of a station that an earlier record gives.
    #[error("record {0} gives the crews of a station that an earlier record gives")]
    CrewsTwice(u64),
    /// There are this many crews, which is more than [`MOST_CREWS`](crew_stations::MOST_CREWS).
    #[error("there are {0} crews, more than 200")]
    TooManyCrews(u64),
    /// There are this many states, which is more than [`MOST_STATES`](crew_stations::MOST_STATES).
    #[error("there are {0} states, more than 65536")]
    TooManyStates(u64),
    /// The service rates of all crews have this sum, which is more than 1,000,000.
    #[error("the service rates of all crews sum to {0}, more than 1000000")]
    CrewService(u64),
    /// There was no memory for the fleet.
    #[error("out of memory")]
    NoMemory,
}

impl FleetRefusal {
    ghost use Rattle.plan_reader.specs.FleetRefusals.{code_of};

    /// The number by which the refusal is reported, 0 for lack of memory, and its arguments in order.
    pub fn code(&self) -> RefusalCode
        ensures { result ≡ code_of self.now }
    {
        match self {
            FleetRefusal::Plan(refusal) => refusal.code(),
            FleetRefusal::CrewsTwice(row) => RefusalCode::of_one(100, *row),
            FleetRefusal::TooManyCrews(crews) => RefusalCode::of_one(101, *crews),
            FleetRefusal::TooManyStates(states) => RefusalCode::of_one(102, *states),
            FleetRefusal::CrewService(sum) => RefusalCode::of_one(103, *sum),
            FleetRefusal::NoMemory => RefusalCode::plain(0),
        }
    }
}

impl From<PlanRefusal> for FleetRefusal {
    ghost use Rattle.plan_reader.specs.FleetRefusals.{of_plan};

    ghost from_gives = { λ refusal fleet. fleet ≡ of_plan refusal };

    fn from(refusal: PlanRefusal) -> FleetRefusal {
        match refusal {
            PlanRefusal::NoMemory => FleetRefusal::NoMemory,
            other => FleetRefusal::Plan(other),
        }
    }
}

impl From<TextRefusal> for FleetRefusal {
    ghost use Rattle.plan_reader.specs.FleetRefusals.{of_text};

    ghost from_gives = { λ refusal fleet. fleet ≡ of_text refusal };

    fn from(refusal: TextRefusal) -> FleetRefusal {
        FleetRefusal::from(PlanRefusal::from(refusal))
    }
}

impl From<AllocError> for FleetRefusal {
    ghost use Rattle.plan_reader.specs.declared.fleet_refusal.FleetRefusal.TheVariants.{NoMemory};

    ghost from_gives = { λ _ refusal. refusal ≡ NoMemory };

    fn from(_: AllocError) -> FleetRefusal {
        FleetRefusal::NoMemory
    }
}
