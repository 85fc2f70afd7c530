ghost use Rattle.std.specs.Prelude.{◌≡◌};

use atom_table::AtomRefusal;
use plan_text::TextRefusal;
use preference_rules::ListRefusal;
use text_lines::RefusalCode;
use thiserror::Error;
use travel_table::TravelRefusal;
use unit_location::LocationRefusal;

/// Why a text gives no plan.
///
/// Records, fields of a record, units and atoms are counted from 1.
#[derive(Clone, Copy, Debug, PartialEq, Eq, Error)]
pub enum PlanRefusal {
    /// A field of this record is no UTF-8.
    #[error("record {0} has a field that is not UTF-8")]
    NotUtf8(u64),
    /// The text has this many bytes, which is more than 4,194,304.
    #[error("the text has {0} bytes, more than 4194304")]
    TooLong(u64),
    /// The first field of this record names no kind of record.
    #[error("record {0} is of no known kind")]
    UnknownKind(u64),
    /// This record has more or fewer fields than its kind has.
    #[error("record {0} has a wrong number of fields")]
    FieldCount(u64),
    /// In this record, this field is no number in the range that is asked for.
    #[error("record {0} has no number in range in field {1}")]
    BadNumber(u64, u64),
    /// In this record, this field is no name, or none of the keywords that may stand there.
    #[error("record {0} has no name or known word in field {1}")]
    BadName(u64, u64),
    /// This record is the first of more than 50,000.
    #[error("record {0} is beyond the 50000 records that a text may have")]
    TooManyRecords(u64),
    /// This record is for an atom whose name an earlier one has.
    #[error("record {0} is for an atom that an earlier record has")]
    DuplicateAtom(u64),
    /// This record is for a unit whose name an earlier one has.
    #[error("record {0} is for a unit that an earlier record has")]
    DuplicateUnit(u64),
    /// This record is for the first of more than 200 atoms.
    #[error("record {0} is beyond the 200 atoms that a plan may have")]
    TooManyAtoms(u64),
    /// This record is for the first of more than 12 units.
    #[error("record {0} is beyond the 12 units that a plan may have")]
    TooManyUnits(u64),
    /// In this record, this field names a unit or an atom that has no record of its own.
    #[error("record {0} has an unknown name in field {1}")]
    UnknownName(u64, u64),
    /// No record is for a unit.
    #[error("there is no unit")]
    NoUnits,
    /// No record is for an atom.
    #[error("there is no atom")]
    NoAtoms,
    /// The call rates of all atoms are 0.
    #[error("no atom has calls")]
    NoCalls,
    /// The call rates have this sum, which is more than 1,000,000.
    #[error("the call rates sum to {0}, more than 1000000")]
    RateSum(u64),
    /// The service rates have this sum, which is more than 1,000,000.
    #[error("the service rates sum to {0}, more than 1000000")]
    ServiceSum(u64),
    /// This record is for two atoms for which, in the same order, an earlier record is.
    #[error("record {0} is for two atoms that an earlier record has in this order")]
    DuplicateTravel(u64),
    /// No record is for the travel from the first of these atoms to the second.
    #[error("there is no travel time from atom {0} to atom {1}")]
    MissingTravel(u64, u64),
    /// This record is for a unit and an atom for which an earlier record is.
    #[error("record {0} is for a unit and an atom that an earlier record has")]
    DuplicateLocation(u64),
    /// The thousandths of this unit have this sum, and not 1000.
    #[error("the thousandths of unit {0} sum to {1}, not 1000")]
    LocationSum(u64, u64),
    /// No record is for the list of this atom.
    #[error("no record is for the list of atom {0}")]
    MissingList(u64),
    /// The records for the list of this atom do not hold every unit exactly once.
    #[error("the list of atom {0} does not hold every unit exactly once")]
    ListNotWhole(u64),
    /// This record gives a list, and the plan's rule is another.
    #[error("record {0} gives a list, and the rule does not ask for one")]
    ListNotAsked(u64),
    /// This record is for an atom whose list an earlier record gives.
    #[error("record {0} is for an atom whose list an earlier record gives")]
    ListTwice(u64),
    /// This record is for a version that is neither 1 nor 2, or in the text of a fleet neither 1 nor 3.
    #[error("record {0} is for an unknown version")]
    Version(u64),
    /// This record is for a setting that an earlier record has.
    #[error("record {0} is for a setting that an earlier record has")]
    SettingTwice(u64),
    /// Calls wait, and their rate, the first number, is not less than that of all service, the second.
    #[error("calls come at the rate {0}, and would queue without end at the service rate {1}")]
    NotStable(u64, u64),
    /// There was no memory for the plan.
    #[error("out of memory")]
    NoMemory,
}

impl PlanRefusal {
    ghost use Rattle.plan_reader.specs.Refusals.{arguments_of, code_of, number_of};

    /// The number by which the refusal is reported, and 0 for lack of memory.
    pub fn number(&self) -> u32
        ensures { result ≡ number_of self.now }
    {
        self.code().number
    }

    /// Its arguments in order, at most two.
    pub fn arguments(&self) -> [Option<u64>; 2]
        ensures { result ≡ arguments_of self.now }
    {
        self.code().arguments
    }

    /// Both together.
    pub fn code(&self) -> RefusalCode
        ensures { result ≡ code_of self.now }
    {
        match self {
            PlanRefusal::NotUtf8(row) => RefusalCode::of_one(1, *row),
            PlanRefusal::TooLong(bytes) => RefusalCode::of_one(2, *bytes),
            PlanRefusal::UnknownKind(row) => RefusalCode::of_one(3, *row),
            PlanRefusal::FieldCount(row) => RefusalCode::of_one(4, *row),
            PlanRefusal::BadNumber(row, field) => RefusalCode::of_two(5, *row, *field),
            PlanRefusal::BadName(row, field) => RefusalCode::of_two(6, *row, *field),
            PlanRefusal::TooManyRecords(row) => RefusalCode::of_one(7, *row),
            PlanRefusal::DuplicateAtom(row) => RefusalCode::of_one(10, *row),
            PlanRefusal::DuplicateUnit(row) => RefusalCode::of_one(11, *row),
            PlanRefusal::TooManyAtoms(row) => RefusalCode::of_one(12, *row),
            PlanRefusal::TooManyUnits(row) => RefusalCode::of_one(13, *row),
            PlanRefusal::UnknownName(row, field) => RefusalCode::of_two(14, *row, *field),
            PlanRefusal::NoUnits => RefusalCode::plain(15),
            PlanRefusal::NoAtoms => RefusalCode::plain(16),
            PlanRefusal::NoCalls => RefusalCode::plain(17),
            PlanRefusal::RateSum(sum) => RefusalCode::of_one(18, *sum),
            PlanRefusal::ServiceSum(sum) => RefusalCode::of_one(19, *sum),
            PlanRefusal::DuplicateTravel(row) => RefusalCode::of_one(20, *row),
            PlanRefusal::MissingTravel(origin, target) => RefusalCode::of_two(21, *origin, *target),
            PlanRefusal::DuplicateLocation(row) => RefusalCode::of_one(30, *row),
            PlanRefusal::LocationSum(unit, sum) => RefusalCode::of_two(31, *unit, *sum),
            PlanRefusal::MissingList(atom) => RefusalCode::of_one(40, *atom),
            PlanRefusal::ListNotWhole(atom) => RefusalCode::of_one(41, *atom),
            PlanRefusal::ListNotAsked(row) => RefusalCode::of_one(42, *row),
            PlanRefusal::ListTwice(row) => RefusalCode::of_one(43, *row),
            PlanRefusal::Version(row) => RefusalCode::of_one(50, *row),
            PlanRefusal::SettingTwice(row) => RefusalCode::of_one(51, *row),
            PlanRefusal::NotStable(calls, service) => RefusalCode::of_two(52, *calls, *service),
            PlanRefusal::NoMemory => RefusalCode::plain(0),
        }
    }
}

impl From<TextRefusal> for PlanRefusal {
    ghost use Rattle.plan_reader.specs.Refusals.{of_text};

    ghost from_gives = { λ refusal plan. plan ≡ of_text refusal };

    fn from(refusal: TextRefusal) -> PlanRefusal {
        match refusal {
            TextRefusal::NotUtf8(row) => PlanRefusal::NotUtf8(row),
            TextRefusal::TooLong(bytes) => PlanRefusal::TooLong(bytes),
            TextRefusal::UnknownKind(row) => PlanRefusal::UnknownKind(row),
            TextRefusal::FieldCount(row) => PlanRefusal::FieldCount(row),
            TextRefusal::BadNumber(row, field) => PlanRefusal::BadNumber(row, field),
            TextRefusal::BadName(row, field) => PlanRefusal::BadName(row, field),
            TextRefusal::TooManyRecords(row) => PlanRefusal::TooManyRecords(row),
            TextRefusal::NoMemory => PlanRefusal::NoMemory,
        }
    }
}

impl From<AtomRefusal> for PlanRefusal {
    ghost use Rattle.plan_reader.specs.Refusals.{of_atom};

    ghost from_gives = { λ refusal plan. plan ≡ of_atom refusal };

    fn from(refusal: AtomRefusal) -> PlanRefusal {
        match refusal {
            AtomRefusal::DuplicateAtom(row) => PlanRefusal::DuplicateAtom(row),
            AtomRefusal::DuplicateUnit(row) => PlanRefusal::DuplicateUnit(row),
            AtomRefusal::TooManyAtoms(row) => PlanRefusal::TooManyAtoms(row),
            AtomRefusal::TooManyUnits(row) => PlanRefusal::TooManyUnits(row),
            AtomRefusal::UnknownName(row, field) => PlanRefusal::UnknownName(row, field),
            AtomRefusal::NoUnits => PlanRefusal::NoUnits,
            AtomRefusal::NoAtoms => PlanRefusal::NoAtoms,
            AtomRefusal::NoCalls => PlanRefusal::NoCalls,
            AtomRefusal::RateSum(sum) => PlanRefusal::RateSum(sum),
            AtomRefusal::ServiceSum(sum) => PlanRefusal::ServiceSum(sum),
            AtomRefusal::NoMemory => PlanRefusal::NoMemory,
        }
    }
}

impl From<TravelRefusal> for PlanRefusal {
    ghost use Rattle.plan_reader.specs.Refusals.{of_travel};

    ghost from_gives = { λ refusal plan. plan ≡ of_travel refusal };

    fn from(refusal: TravelRefusal) -> PlanRefusal {
        match refusal {
            TravelRefusal::DuplicateTravel(row) => PlanRefusal::DuplicateTravel(row),
            TravelRefusal::MissingTravel(origin, target) => PlanRefusal::MissingTravel(
                origin, target,
            ),
            TravelRefusal::NoMemory => PlanRefusal::NoMemory,
        }
    }
}

impl From<LocationRefusal> for PlanRefusal {
    ghost use Rattle.plan_reader.specs.Refusals.{of_location};

    ghost from_gives = { λ refusal plan. plan ≡ of_location refusal };

    fn from(refusal: LocationRefusal) -> PlanRefusal {
        match refusal {
            LocationRefusal::DuplicateLocation(row) => PlanRefusal::DuplicateLocation(row),
            LocationRefusal::LocationSum(unit, sum) => PlanRefusal::LocationSum(unit, sum),
            LocationRefusal::NoMemory => PlanRefusal::NoMemory,
        }
    }
}

impl From<ListRefusal> for PlanRefusal {
    ghost use Rattle.plan_reader.specs.Refusals.{of_list};

    ghost from_gives = { λ refusal plan. plan ≡ of_list refusal };

    fn from(refusal: ListRefusal) -> PlanRefusal {
        match refusal {
            ListRefusal::MissingList(atom) => PlanRefusal::MissingList(atom),
            ListRefusal::ListNotWhole(atom) => PlanRefusal::ListNotWhole(atom),
            ListRefusal::ListNotAsked(row) => PlanRefusal::ListNotAsked(row),
            ListRefusal::ListTwice(row) => PlanRefusal::ListTwice(row),
            ListRefusal::NoMemory => PlanRefusal::NoMemory,
        }
    }
}
