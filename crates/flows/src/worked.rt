//! Worked plants, and what the four questions give on each.
//!
//! Each plant is a small function; [`worked_plants`] has them in one table. Its contract says that they are the plants of
//! `specs/Examples.antt`, and of each that what it shows is what the definitions give, where the tables are long enough. It is
//! proved by computing.
ghost use Rattle.std.specs.Prelude.{IsTrue};
ghost use Rattle.flows.specs.Examples as Examples;
ghost use Rattle.flows.specs.Worked.{given, Shows, WorkedOut};
ghost use Rattle.flows.specs.WorkedTests.{passes};

use crate::class::Class;
use crate::class::Class::{JustMeasured, Observable, OutOfUse, Redundant, Unobservable};
use crate::ends::Ends;
use crate::fault::QuestionFault;
use crate::fault::QuestionFault::{Consistent, Determined, Inconsistent, NotInUse};
use quantity::mass::Mass;
use quantity::totaliser::Totaliser;

/// What survey writes for the numbers 1 to 5, and the counts that it answers: observable, unobservable, redundant, just
/// measured. All further numbers are out of use.
#[derive(Clone, Copy, PartialEq, Eq, Debug)]
pub struct Survey {
    pub classes: [Class; 5],
    pub counts: (u16, u16, u16, u16),
}

/// Two flows that rival may write, by their amounts at the numbers 1 to 5; those at numbers out of use do not count.
#[derive(Clone, Copy, PartialEq, Eq, Debug)]
pub struct Flows<Q> {
    pub first: [Q; 5],
    pub second: [Q; 5],
}

/// What dispute marks of the units 0 to 3, and the net amount that it answers. No further unit is marked.
#[derive(Clone, Copy, PartialEq, Eq, Debug)]
pub struct Dispute<Q> {
    pub marks: [bool; 4],
    pub net: Q,
}

/// What a plant shows of one stream number.
#[derive(Clone, Copy, PartialEq, Eq, Debug)]
pub struct WorkedStream<Q> {
    /// The ends of the stream; a number without ends is out of use.
    pub ends: Option<Ends>,
    /// The amount that the number has in the source.
    pub amount: Option<Q>,
    /// Whether the number is isolated; then it has no reading.
    pub isolated: bool,
    /// What value gives for the number.
    pub value: Result<Option<Q>, QuestionFault>,
    /// What rival gives for the number.
    pub rival: Result<Flows<Q>, QuestionFault>,
}

/// A plant with streams among the numbers 1 to 5, and what each question gives on it where its tables are long enough.
// `Drop` and not `Copy`: a derived copy owes that five rows of any quantity fit the memory, which is not proved.
#[derive(Drop)]
pub struct WorkedPlant<Q> {
    /// The units are 0 to this.
    pub units: u16,
    /// What it shows of the numbers 1 to 5.
    pub streams: [WorkedStream<Q>; 5],
    /// What survey gives.
    pub survey: Result<Survey, QuestionFault>,
    /// What dispute gives.
    pub dispute: Result<Dispute<Q>, QuestionFault>,
}

/// A worked plant of one of the quantities.
// `Drop` alone, as the plants are.
#[derive(Drop)]
pub enum Worked {
    OfMasses(WorkedPlant<Mass>),
    OfTotalisers(WorkedPlant<Totaliser>),
}

/// Hands back a plant that passes the test, and so shows what the definitions give on it.
#[tactic(auto, using(crate::proofs::WorkedPlants::passing_shown))]
fn checked(plant: Worked) -> Worked
    requires { IsTrue (passes plant) }
    ensures { Shows (given plant) result }
{
    plant
}

// The rows are macros, so that the checker sees each plant as one literal and computes it. With functions for rows it gives
// up on the larger plants.
/// What a plant shows of a stream number in use: the ends of the stream, the amount in the source, and what value and rival
/// give.
macro_rules! stream {
    ($from:literal -> $to:literal, $amount:expr, $value:expr, $rival:expr) => {
        WorkedStream {
            ends: Some(Ends {
                from: $from,
                to: $to,
            }),
            amount: $amount,
            isolated: false,
            value: $value,
            rival: $rival,
        }
    };
}

/// What a plant shows of a number out of use.
macro_rules! out_of_use {
    () => {
        WorkedStream {
            ends: None,
            amount: None,
            isolated: false,
            value: Err(NotInUse),
            rival: Err(NotInUse),
        }
    };
}

/// Two flows of one quantity.
macro_rules! flows {
    ($quantity:path, [$($first:expr),*], [$($second:expr),*]) => {
        Flows {
            first: [$($quantity($first)),*],
            second: [$($quantity($second)),*],
        }
    };
}

/// Twin. Streams 2 and 3 run side by side, and nobody can know how much goes through which.
///
/// A search for closed paths that ignored every stream back to the unit it came from would call 2 and 3 observable.
fn twin() -> Worked
    ensures { Shows Examples.twin result }
{
    checked(Worked::OfMasses(WorkedPlant {
        units: 3,
        streams: [
            stream!(0 -> 1, Some(Mass(100)), Ok(Some(Mass(100))), Err(Determined)),
            stream!(
                1 -> 2, None, Ok(None),
                Ok(flows!(Mass, [100, 0, 100, 100, 100], [100, 100, 0, 100, 100]))
            ),
            stream!(
                1 -> 2, None, Ok(None),
                Ok(flows!(Mass, [100, 100, 0, 100, 100], [100, 30, 70, 100, 100]))
            ),
            stream!(2 -> 3, None, Ok(Some(Mass(100))), Err(Determined)),
            stream!(3 -> 0, Some(Mass(100)), Ok(Some(Mass(100))), Err(Determined)),
        ],
        survey: Ok(Survey {
            classes: [Redundant, Unobservable, Unobservable, Observable, Redundant],
            counts: (1, 2, 2, 0),
        }),
        dispute: Err(Consistent),
    }))
}

/// Twin with stream 5 reading 90: units 1, 2 and 3 take in 100 and give off 90.
fn twin_in_dispute() -> Worked
    ensures { Shows Examples.twin_in_dispute result }
{
    checked(Worked::OfMasses(WorkedPlant {
        units: 3,
        streams: [
            stream!(0 -> 1, Some(Mass(100)), Err(Inconsistent), Err(Inconsistent)),
            stream!(1 -> 2, None, Err(Inconsistent), Err(Inconsistent)),
            stream!(1 -> 2, None, Err(Inconsistent), Err(Inconsistent)),
            stream!(2 -> 3, None, Err(Inconsistent), Err(Inconsistent)),
            stream!(3 -> 0, Some(Mass(90)), Err(Inconsistent), Err(Inconsistent)),
        ],
        survey: Err(Inconsistent),
        dispute: Ok(Dispute {
            marks: [false, true, true, true],
            net: Mass(-10),
        }),
    }))
}

/// Twin with stream 5 isolated: the meter of stream 1 is the only one left, and 4 and 5 follow from it.
///
/// All units are then in one part with unit 0. That this part balances does not make the reading of stream 1 redundant.
fn twin_with_5_isolated() -> Worked
    ensures { Shows Examples.twin_with_5_isolated result }
{
    checked(Worked::OfMasses(WorkedPlant {
        units: 3,
        streams: [
            stream!(
                0 -> 1, Some(Mass(100)), Ok(Some(Mass(100))),
                Ok(flows!(Mass, [0, 0, 0, 0, 0], [100, 100, 0, 100, 100]))
            ),
            stream!(
                1 -> 2, None, Ok(None),
                Ok(flows!(Mass, [100, 0, 100, 100, 100], [100, 100, 0, 100, 100]))
            ),
            stream!(
                1 -> 2, None, Ok(None),
                Ok(flows!(Mass, [100, 0, 100, 100, 100], [100, 100, 0, 100, 100]))
            ),
            stream!(2 -> 3, None, Ok(Some(Mass(100))), Err(Determined)),
            WorkedStream {
                isolated: true,
                ..stream!(3 -> 0, Some(Mass(100)), Ok(Some(Mass(100))), Err(Determined))
            },
        ],
        survey: Ok(Survey {
            classes: [
                JustMeasured,
                Unobservable,
                Unobservable,
                Observable,
                Observable,
            ],
            counts: (2, 2, 0, 1),
        }),
        dispute: Err(Consistent),
    }))
}

/// A stream into a unit that nothing leaves carries nothing.
fn dead_end() -> Worked
    ensures { Shows Examples.dead_end result }
{
    checked(Worked::OfMasses(WorkedPlant {
        units: 1,
        streams: [
            stream!(0 -> 1, None, Ok(Some(Mass(0))), Err(Determined)),
            out_of_use!(),
            out_of_use!(),
            out_of_use!(),
            out_of_use!(),
        ],
        survey: Ok(Survey {
            classes: [Observable, OutOfUse, OutOfUse, OutOfUse, OutOfUse],
            counts: (1, 0, 0, 0),
        }),
        dispute: Err(Consistent),
    }))
}

/// A stream from a unit to itself is a closed path alone.
fn unread_loop() -> Worked
    ensures { Shows Examples.unread_loop result }
{
    checked(Worked::OfMasses(WorkedPlant {
        units: 1,
        streams: [
            stream!(1 -> 1, None, Ok(None), Ok(flows!(Mass, [0, 0, 0, 0, 0], [1, 0, 0, 0, 0]))),
            out_of_use!(),
            out_of_use!(),
            out_of_use!(),
            out_of_use!(),
        ],
        survey: Ok(Survey {
            classes: [Unobservable, OutOfUse, OutOfUse, OutOfUse, OutOfUse],
            counts: (0, 1, 0, 0),
        }),
        dispute: Err(Consistent),
    }))
}

/// A stream from a unit to itself with a meter: no balance confirms it.
fn read_loop() -> Worked
    ensures { Shows Examples.read_loop result }
{
    checked(Worked::OfMasses(WorkedPlant {
        units: 1,
        streams: [
            stream!(
                1 -> 1, Some(Mass(5)), Ok(Some(Mass(5))),
                Ok(flows!(Mass, [0, 0, 0, 0, 0], [5, 0, 0, 0, 0]))
            ),
            out_of_use!(),
            out_of_use!(),
            out_of_use!(),
            out_of_use!(),
        ],
        survey: Ok(Survey {
            classes: [JustMeasured, OutOfUse, OutOfUse, OutOfUse, OutOfUse],
            counts: (0, 0, 0, 1),
        }),
        dispute: Err(Consistent),
    }))
}

/// Two units, each with one metered stream to or from unit 0: both parts are in dispute, and dispute takes the lower unit.
fn two_in_dispute() -> Worked
    ensures { Shows Examples.two_in_dispute result }
{
    checked(Worked::OfMasses(WorkedPlant {
        units: 2,
        streams: [
            stream!(0 -> 1, Some(Mass(5)), Err(Inconsistent), Err(Inconsistent)),
            stream!(2 -> 0, Some(Mass(5)), Err(Inconsistent), Err(Inconsistent)),
            out_of_use!(),
            out_of_use!(),
            out_of_use!(),
        ],
        survey: Err(Inconsistent),
        dispute: Ok(Dispute {
            marks: [false, true, false, false],
            net: Mass(-5),
        }),
    }))
}

/// Two counters whose sum rolls over, and an unread stream that carries both amounts away.
fn rolled_over() -> Worked
    ensures { Shows Examples.rolled_over result }
{
    checked(Worked::OfTotalisers(WorkedPlant {
        units: 1,
        streams: [
            stream!(
                0 -> 1, Some(Totaliser(999_990)), Ok(Some(Totaliser(999_990))),
                Ok(flows!(Totaliser, [0, 20, 20, 0, 0], [999_990, 20, 10, 0, 0]))
            ),
            stream!(
                0 -> 1, Some(Totaliser(20)), Ok(Some(Totaliser(20))),
                Ok(flows!(Totaliser, [999_990, 0, 999_990, 0, 0], [999_990, 20, 10, 0, 0]))
            ),
            stream!(1 -> 0, None, Ok(Some(Totaliser(10))), Err(Determined)),
            out_of_use!(),
            out_of_use!(),
        ],
        survey: Ok(Survey {
            classes: [JustMeasured, JustMeasured, Observable, OutOfUse, OutOfUse],
            counts: (1, 0, 0, 2),
        }),
        dispute: Err(Consistent),
    }))
}

/// A closed path through unit 0 counts as any other: nobody can know how much goes round.
fn through_unit_0() -> Worked
    ensures { Shows Examples.through_unit_0 result }
{
    checked(Worked::OfMasses(WorkedPlant {
        units: 2,
        streams: [
            stream!(0 -> 1, None, Ok(None), Ok(flows!(Mass, [0, 0, 0, 0, 0], [1, 1, 1, 0, 0]))),
            stream!(1 -> 2, None, Ok(None), Ok(flows!(Mass, [0, 0, 0, 0, 0], [1, 1, 1, 0, 0]))),
            stream!(2 -> 0, None, Ok(None), Ok(flows!(Mass, [0, 0, 0, 0, 0], [1, 1, 1, 0, 0]))),
            out_of_use!(),
            out_of_use!(),
        ],
        survey: Ok(Survey {
            classes: [Unobservable, Unobservable, Unobservable, OutOfUse, OutOfUse],
            counts: (0, 3, 0, 0),
        }),
        dispute: Err(Consistent),
    }))
}

/// A reading inside one part without unit 0: whatever it is, stream 1 can carry the same, so it is just measured.
fn inside_one_part() -> Worked
    ensures { Shows Examples.inside_one_part result }
{
    checked(Worked::OfMasses(WorkedPlant {
        units: 2,
        streams: [
            stream!(1 -> 2, None, Ok(Some(Mass(5))), Err(Determined)),
            stream!(
                2 -> 1, Some(Mass(5)), Ok(Some(Mass(5))),
                Ok(flows!(Mass, [0, 0, 0, 0, 0], [5, 5, 0, 0, 0]))
            ),
            out_of_use!(),
            out_of_use!(),
            out_of_use!(),
        ],
        survey: Ok(Survey {
            classes: [Observable, JustMeasured, OutOfUse, OutOfUse, OutOfUse],
            counts: (1, 0, 0, 1),
        }),
        dispute: Err(Consistent),
    }))
}

/// A read stream between the two sides of stream 3 counts in its cut sum: 30 enter the side of unit 1, and 10 leave it by
/// stream 4.
///
/// Number 1 is out of use, although the source still has a reading of it.
fn read_across_the_cut() -> Worked
    ensures { Shows Examples.read_across_the_cut result }
{
    checked(Worked::OfMasses(WorkedPlant {
        units: 2,
        streams: [
            WorkedStream {
                amount: Some(Mass(7)),
                ..out_of_use!()
            },
            stream!(
                0 -> 1, Some(Mass(30)), Ok(Some(Mass(30))),
                Ok(flows!(Mass, [0, 0, -10, 10, 0], [0, 30, 20, 10, 30]))
            ),
            stream!(1 -> 2, None, Ok(Some(Mass(20))), Err(Determined)),
            stream!(
                1 -> 2, Some(Mass(10)), Ok(Some(Mass(10))),
                Ok(flows!(Mass, [0, 30, 30, 0, 30], [0, 30, 20, 10, 30]))
            ),
            stream!(2 -> 0, None, Ok(Some(Mass(30))), Err(Determined)),
        ],
        survey: Ok(Survey {
            classes: [OutOfUse, JustMeasured, Observable, JustMeasured, Observable],
            counts: (2, 0, 0, 2),
        }),
        dispute: Err(Consistent),
    }))
}

/// The worked plants, each with what survey, value, rival and dispute give on it.
pub fn worked_plants() -> [Worked; 11]
    ensures { WorkedOut Examples.plants result }
{
    [
        twin(),
        twin_in_dispute(),
        twin_with_5_isolated(),
        dead_end(),
        unread_loop(),
        read_loop(),
        two_in_dispute(),
        rolled_over(),
        through_unit_0(),
        inside_one_part(),
        read_across_the_cut(),
    ]
}
