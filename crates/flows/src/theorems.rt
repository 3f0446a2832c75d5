//! What is true of every drawing, every table of readings and every flow, for every quantity.
//!
//! The functions do nothing. Each has a theorem as its contract, so that the crate is proved only if the theorem is. The
//! statements are in `specs/Theorems.antt`, and `docs/THEORY.md` has the idea of each proof.
ghost use Rattle.quantity.specs.Masses.{mass_model, components_model};
ghost use Rattle.quantity.specs.Totalisers.{totaliser_model};
ghost use Rattle.flows.specs.Comparisons.{Comparison};
ghost use Rattle.flows.specs.Theorems.{BalancedFlowsHaveNoNet, SomeFlowExactlyIfConsistent, ConflictExcludesFlows, FlowOrConflict, ConflictExactlyIfNoFlow, ZeroOrAnything, TwoSides, ObservableCarriesItsCutSum, RedundantCarriesOneAmount, UnobservableCarriesAnything, JustMeasuredCarriesAnything, OnAPathExactlyIfLinked, ExactlyOneClass, DecisionsAreRight, SurveyAnswersAgree, ValueAnswersAgree, RivalAnswersAgree, DisputeAnswersAgree};

use quantity::Quantity;

/// A balanced flow has net zero over every set of places, with or without the surroundings.
#[tactic(auto, using(crate::proofs::Balances::balanced_net))]
pub fn balanced_flows_have_no_net<Q: Quantity>()
    ensures { BalancedFlowsHaveNoNet Q.model.group }
{}

/// Some balanced flow agrees with the readings exactly if each part without the surroundings has the net amount zero; where
/// each has, the flow is constructed.
pub fn some_flow_exactly_if_consistent<Q: Quantity>()
    ensures { SomeFlowExactlyIfConsistent Q.model.group }
{}

/// Where only read streams cross a set of units without the surroundings and its net amount is not zero, no balanced flow
/// agrees; nor where the plant is inconsistent.
pub fn conflict_excludes_flows<Q: Quantity>()
    ensures { ConflictExcludesFlows Q.model.group }
{}

/// It cannot be that no balanced flow agrees and there is no set of units without the surroundings that only read streams
/// cross and whose net amount is not zero; nor that none agrees and the plant is not inconsistent.
pub fn flow_or_conflict<Q: Quantity>()
    ensures { FlowOrConflict Q.model.group }
{}

/// Where amounts can be told apart by a test: there is a set of units without the surroundings that only read streams cross
/// and whose net amount is not zero exactly if no balanced flow agrees, and some balanced flow agrees exactly if the plant is
/// not inconsistent.
pub fn conflict_exactly_if_no_flow<Q: Quantity>()
    ensures { ConflictExactlyIfNoFlow Q.model.group }
{}

/// What masses, totalisers and components mean can be told apart by a test.
pub fn amounts_can_be_told_apart()
    ensures masses { Comparison mass_model.group }
    ensures totalisers { Comparison totaliser_model.group }
    ensures components { Comparison components_model.group }
{}

/// At a stream in use outside a set of streams, the balanced flows that are zero on the set are all zero, or take every
/// amount. Which of the two is decided by whether streams outside the set, other than itself, join its ends.
pub fn zero_or_anything<Q: Quantity>()
    ensures { ZeroOrAnything Q.model.group }
{}

/// Without an observable stream its part falls into two sides: each place of the part is on one, and none on both.
pub fn two_sides()
    ensures { TwoSides }
{}

/// An observable stream has a cut sum, and carries it in every balanced flow that agrees.
pub fn observable_carries_its_cut_sum<Q: Quantity>()
    ensures { ObservableCarriesItsCutSum Q.model.group }
{}

/// A redundant stream carries one amount in all balanced flows that agree with the other readings.
pub fn redundant_carries_one_amount<Q: Quantity>()
    ensures { RedundantCarriesOneAmount Q.model.group }
{}

/// Where some balanced flow agrees, for each amount one of them carries it at an unobservable stream.
pub fn unobservable_carries_anything<Q: Quantity>()
    ensures { UnobservableCarriesAnything Q.model.group }
{}

/// Where some balanced flow agrees with the other readings, for each amount one carries it at a just-measured stream.
pub fn just_measured_carries_anything<Q: Quantity>()
    ensures { JustMeasuredCarriesAnything Q.model.group }
{}

/// An unread stream is on a closed path of unread streams exactly if unread streams other than itself join its ends.
pub fn on_a_path_exactly_if_linked()
    ensures { OnAPathExactlyIfLinked }
{}

/// Every stream number has exactly one class.
#[tactic(auto, using(crate::proofs::Results::exactly_one_class))]
pub fn exactly_one_class()
    ensures { ExactlyOneClass }
{}

/// The class and the cut sum that `specs/Decisions.antt` computes are those of the definitions, and so is the consistency
/// where amounts can be told apart by a test.
#[tactic(auto, using(crate::proofs::Agreement::decisions_are_right))]
pub fn decisions_are_right<Q: Quantity>()
    ensures { DecisionsAreRight Q.model.group }
{}

/// The definitions leave survey at most one answer and one table of classes.
pub fn survey_answers_agree<Q: Quantity>()
    ensures { SurveyAnswersAgree Q.model }
{}

/// The definitions leave value at most one answer, by what it means.
pub fn value_answers_agree<Q: Quantity>()
    ensures { ValueAnswersAgree Q.model }
{}

/// The definitions leave open which flows rival writes, but not whether it is accepted, which number refuses it, or what
/// the places of numbers out of use then hold.
pub fn rival_answers_agree<Q: Quantity>()
    ensures { RivalAnswersAgree Q.model }
{}

/// The definitions leave dispute at most one answer, by what it means, and one table of marks.
pub fn dispute_answers_agree<Q: Quantity>()
    ensures { DisputeAnswersAgree Q.model }
{}
