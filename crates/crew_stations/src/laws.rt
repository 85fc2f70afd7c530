//! The laws of stations, over definitions only. Their calls answer nothing: each one's contract is a theorem.
ghost use Rattle.std.specs.Prelude.{ℕ};
ghost use Rattle.hyper_model.specs.Tables.{RateTable};
ghost use Rattle.crew_stations.specs.FleetLaws.{HoldsForFleets, HoldsOfCrews, HavePositiveCrews, HavePositiveStates, IsExpandedAccepted, IsExpandedStationed, IsExpandedSolvable};
ghost use Rattle.crew_stations.specs.Stations.{StationPlan};
ghost use Rattle.crew_stations.specs.StateFlows.{IsInflowOfStations, IsOutflowOfStations};
ghost use Rattle.crew_stations.specs.Spreads.{AreWordsSpread, IsStateChainSolvable, AreStatesProportional};
ghost use Rattle.crew_stations.specs.OneCrew.{AreWordsStates, AreMeasuresOfPlan};
ghost use Rattle.crew_stations.specs.Lumps.{ClassesBalance, ExchangedBalance};
ghost use Rattle.crew_stations.specs.Laws.{HoldsAtStations, StatesBalance, MeasuresAreOfStates, SharesAreOfStates, CrewsAreAlike, AreStatesEven, CrewsShareWorkloads, CrewsShareTravel, CrewsShareDispatches, EndsCarryOver, EndsOfEqualRatios};

/// If the rates from a state to the states of a class depend only on its own class, the masses of the classes
/// balance in the chain of the classes.
pub fn law_lumps()
    ensures { (n m : ℕ) (rate : RateTable) (class : ℕ → ℕ) (lumped : RateTable) → ClassesBalance n m rate class lumped }
{}

/// New numbers of the states that leave all rates as they are leave the masses as they are.
pub fn law_alike()
    ensures { (n : ℕ) (rate : RateTable) → ExchangedBalance n rate }
{}

/// In every accepted plan whose units stand at stations, the masses of the states of a solution, each the sum over its
/// words, are a solution over the states, with the same mass of the waiting calls.
pub fn law_lumping()
    ensures { HoldsAtStations StatesBalance }
{}

/// Crews of one station can be exchanged: in every solution the words that become each other have equal masses, and so
/// have all words in which as many crews of each station are busy. Each crew has the workload and the mean travel time of
/// its station, and answers an equal share of its calls.
pub fn law_exchange()
    ensures words { HoldsAtStations CrewsAreAlike }
    ensures states { HoldsAtStations AreStatesEven }
    ensures workloads { HoldsAtStations CrewsShareWorkloads }
    ensures travel { HoldsAtStations CrewsShareTravel }
    ensures dispatches { HoldsAtStations CrewsShareDispatches }
{}

/// Each measure of a station, Larson's formula summed over its crews, is a ratio of sums over the states; and so is the
/// share of time in which no crew of a station is free. Ends that contain such a ratio contain the measure of the crews,
/// and each ratio that equals it.
pub fn law_state_measures()
    ensures measures { HoldsAtStations MeasuresAreOfStates }
    ensures full { HoldsAtStations SharesAreOfStates }
    ensures ends { HoldsAtStations EndsCarryOver }
    ensures equal_ends { EndsOfEqualRatios }
{}

/// A plan of stations that is accepted gives an accepted plan with a unit for each crew, however many crews there are.
/// Its units stand at the stations, and its balance equations have a solution.
pub fn law_crews()
    ensures accepted { HoldsForFleets IsExpandedAccepted }
    ensures stationed { HoldsForFleets IsExpandedStationed }
    ensures solvable { HoldsForFleets IsExpandedSolvable }
{}

/// For every solution of the plan with a unit for each crew: the masses of the states are a solution over the states;
/// each measure of the crews of a station, Larson's formula summed over them, is a ratio of sums over the states, and so
/// is the share of time in which no crew of a station is free; no ratio that has a value is over 0; each crew has the
/// workload and the mean travel time of its station, and answers an equal share of its calls; and each state's mass is
/// spread evenly over its words.
pub fn law_expanded()
    ensures states { HoldsOfCrews StatesBalance }
    ensures measures { HoldsOfCrews MeasuresAreOfStates }
    ensures crews_positive { HoldsOfCrews HavePositiveCrews }
    ensures states_positive { HoldsOfCrews HavePositiveStates }
    ensures full { HoldsOfCrews SharesAreOfStates }
    ensures workloads { HoldsOfCrews CrewsShareWorkloads }
    ensures travel { HoldsOfCrews CrewsShareTravel }
    ensures dispatches { HoldsOfCrews CrewsShareDispatches }
    ensures spread { HoldsOfCrews AreWordsSpread }
{}

/// A solution over the states exists, and any two are proportional. Each is that of the words: a state's mass is spread
/// evenly over its words.
pub fn law_stations()
    ensures solvable { HoldsForFleets IsStateChainSolvable }
    ensures proportional { HoldsForFleets AreStatesProportional }
    ensures spread { HoldsAtStations AreWordsSpread }
{}

/// The flow into a state and the rate out of it, as sums over the stations: a state has at most two neighbours for each.
pub fn law_flows()
    ensures inflow { (s : StationPlan) → IsInflowOfStations s }
    ensures outflow { (s : StationPlan) → IsOutflowOfStations s }
{}

/// With one crew at each station the states are the words, by the same numbers, and the measures are those of the plan.
pub fn law_one_crew_each()
    ensures words { HoldsForFleets AreWordsStates }
    ensures measures { HoldsForFleets AreMeasuresOfPlan }
{}
