//! The chase.
ghost use Rattle.std.specs.Prelude.{◌≡◌, [], length, IfOk, MatchOption, ⊤};
ghost use Rattle.either.specs.Either.{MatchEither};
ghost use Rattle.esto_semantics.specs.Containment.{IsSatisfiable};
ghost use Rattle.esto_semantics.specs.Instances.{IsUniversalFor};
ghost use Rattle.esto_constraint.specs.Constraints.{rules_of};
ghost use Rattle.esto_constraint.specs.Graphs.{IsWithin, AreRanks};
ghost use Rattle.esto_constraint.specs.Relations.{IsEdge};
ghost use Rattle.esto_chase_laws.specs.Received.{IsReceivedBy};
ghost use Rattle.esto_chase_laws.specs.Runs.{IsStart, moved_by};
ghost use Rattle.esto_instance.specs.Instances.{state_of, trace_of, steps_of};
ghost use Rattle.esto_chase.specs.Chased.{IsFinishedRun, RunClashes, ReceivesNothing, AreNested};

use crate::next::next;
use crate::steps::take_step;
use either::{Either, Left, Right};
use esto_chase_laws::{
    Clash, clashes_receive_nothing, finished_runs_decide, runs_end, states_are_received,
    states_are_universal, terms_nest_within_ranks,
};
use esto_constraint::{Ranks, Rules, ranks_rise, rules_are_sound};
use esto_instance::Instance;
use esto_term::OutOfMemory;
use std::alloc::Global;

/// What a finished chase leaves.
#[derive(Drop)]
pub struct Chased {
    pub instance: Instance,
}

/// Makes one step of the instance after another, to the end of the run; None comes where it ends with no clash.
fn go_on(
    alloc: Global,
    instance: &mut Instance,
    rules: &Rules,
    ranks: &Ranks,
) -> Result<Option<Clash>, OutOfMemory>
    requires start { IsStart (state_of instance.old) }
    requires trace { trace_of instance.old ≡ [] }
    requires within { IsWithin (length ranks.now) (IsEdge (rules_of rules.now)) }
    requires ranks { AreRanks (IsEdge (rules_of rules.now)) (length ranks.now) ranks.now }
    ensures { IfOk result (λ clashed. MatchOption clashed
        (IsFinishedRun (rules_of rules.now) (state_of instance.old) instance.new)
        (RunClashes (rules_of rules.now) (state_of instance.old))) }
{
    rules_are_sound();
    ranks_rise();
    runs_end();
    let _count = ranks.len();
    'steps: loop {
        let outcome = next(alloc, rules, instance.facts())?;
        let Some(broken) = outcome else {
            return Ok(None);
        };
        let clashed = take_step(alloc, instance, rules, broken)?;
        if let Some(clash) = clashed {
            return Ok(Some(clash));
        }
    }
}

/// Goes on from the start to the end of the run.
fn run(
    alloc: Global,
    start: Instance,
    rules: &Rules,
    ranks: &Ranks,
) -> Result<Either<Chased, Clash>, OutOfMemory>
    requires start { IsStart (state_of start) }
    requires trace { trace_of start ≡ [] }
    requires within { IsWithin (length ranks.now) (IsEdge (rules_of rules.now)) }
    requires ranks { AreRanks (IsEdge (rules_of rules.now)) (length ranks.now) ranks.now }
    ensures { IfOk result (λ it. MatchEither it
        (λ chased. IsFinishedRun (rules_of rules.now) (state_of start) chased.instance)
        (RunClashes (rules_of rules.now) (state_of start))) }
{
    let mut instance = start;
    match go_on(alloc, &mut instance, rules, ranks)? {
        None => Ok(Left(Chased { instance })),
        Some(clash) => {
            drop(instance);
            Ok(Right(clash))
        }
    }
}

/// The standard chase of the start. Each step is at the least active match of the first rule that has one, where equality
/// rules come first, then denials, then tuple rules, each by number. Left comes with the instance at the end of the
/// run, whose facts meet the rules; then every database that meets the rules and receives the start receives it. Right
/// comes exactly where no database that meets the rules receives the start, with the clash at which the run ends. The
/// ranks are those of the rules' relations; a made term nests no deeper than the rank of its fact's relation. Where
/// memory is refused the start is gone. Source: the chase of Fagin, Kolaitis, Miller and Popa (2005).
pub fn chase(
    alloc: Global,
    start: Instance,
    rules: &Rules,
    ranks: &Ranks,
) -> Result<Either<Chased, Clash>, OutOfMemory>
    requires start { IsStart (state_of start) }
    requires trace { trace_of start ≡ [] }
    requires within { IsWithin (length ranks.now) (IsEdge (rules_of rules.now)) }
    requires ranks { AreRanks (IsEdge (rules_of rules.now)) (length ranks.now) ranks.now }
    ensures run { IfOk result (λ it. MatchEither it
        (λ chased. IsFinishedRun (rules_of rules.now) (state_of start) chased.instance)
        (RunClashes (rules_of rules.now) (state_of start))) }
    ensures received { IfOk result (λ it. MatchEither it
        (λ chased. IsReceivedBy (rules_of rules.now) (state_of start) (state_of chased.instance)
        (moved_by (steps_of (trace_of chased.instance))))
        (λ _. ReceivesNothing (rules_of rules.now) (state_of start))) }
    ensures satisfiable { IfOk result (λ it. MatchEither it
        (λ _. IsSatisfiable (rules_of rules.now) (state_of start))
        (λ _. ¬ (IsSatisfiable (rules_of rules.now) (state_of start)))) }
    ensures universal { IfOk result (λ it. MatchEither it
        (λ chased. IsUniversalFor (rules_of rules.now) (state_of start) (state_of chased.instance))
        (λ _. ⊤)) }
    ensures nested { IfOk result (λ it. MatchEither it
        (λ chased. AreNested ranks.now (state_of chased.instance).body) (λ _. ⊤)) }
{
    rules_are_sound();
    ranks_rise();
    states_are_received();
    states_are_universal();
    finished_runs_decide();
    clashes_receive_nothing();
    terms_nest_within_ranks();
    run(alloc, start, rules, ranks)
}
