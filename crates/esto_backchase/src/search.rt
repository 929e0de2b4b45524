//! The search for the minimal sets of a plan's atoms that answer the query.
ghost use Rattle.std.specs.Prelude.{◌≡◌, ◌↔◌, ◌⊎◌, ◌<◌, ◌≤◌, ◌∷◌, ◌++◌, [], ℕ, List, Bool, Contains, IfOk, OnOk, MatchOption, length};
ghost use Rattle.esto_term.specs.Sets.{Has, Rises};
ghost use Rattle.esto_backchase.specs.Candidates.{IsSearch, Answers};
ghost use Rattle.esto_backchase.specs.Searching.{AreFailing, FailsAt, FailsWith, HasOneOf, IsBetween, IsFirstSuperset, IsWithRange, Visited};

use crate::candidates::Search;
use esto_bits::{Products, RowBits, SetList};
use esto_term::{List, OutOfMemory, Places, Replicate, Values};
use std::alloc::Global;

/// The set with one number more.
fn with_number(alloc: Global, set: &RowBits, number: usize) -> Result<RowBits, OutOfMemory>
    requires { number < length set.now }
    ensures count { IfOk result (λ it. length it ≡ length set.now) }
    ensures has { IfOk result (λ it. (other : ℕ) → Has it other
        ↔ ((other ≡ number) ⊎ Has set.now other)) }
{
    let mut more = set.copy(alloc)?;
    more.insert(number);
    Ok(more)
}

/// The set with all numbers of a range.
fn with_range(alloc: Global, set: &RowBits, from: usize, to: usize) -> Result<RowBits, OutOfMemory>
    requires { to ≤ length set.now }
    ensures { IfOk result (IsWithRange set.now from to) }
{
    let mut more = set.copy(alloc)?;
    'numbers: for number in from..to {
        more.insert(number);
    }
    Ok(more)
}

/// The place of the first of the sets that has the set's numbers. None comes exactly where none
/// has.
fn superset_in(sets: &SetList, set: &RowBits) -> Option<usize>
    requires { (other : List Bool) → Contains sets.now other → length other ≡ length set.now }
    ensures { IsFirstSuperset sets.now set.now result }
{
    'sets: for place in 0..sets.len() {
        if set.within(sets.item(place)) {
            return Some(place);
        }
    }
    None
}

/// The numbers that the set lacks.
fn absent(alloc: Global, set: &RowBits) -> Result<Places, OutOfMemory>
    ensures { IfOk result (λ it. (number : ℕ) → Contains it number
        ↔ ((number < length set.now) × ¬ (Has set.now number))) }
{
    let mut numbers = Values::new(alloc);
    'numbers: for number in 0..set.count() {
        if !set.has(number) {
            numbers.push(number)?;
        }
    }
    Ok(numbers)
}

/// The numbers that both sets lack.
fn absent_in_both(alloc: Global, set: &RowBits, other: &RowBits) -> Result<Places, OutOfMemory>
    requires { length other.now ≡ length set.now }
    ensures { IfOk result (λ it. (number : ℕ) → Contains it number
        ↔ ((number < length set.now) × ¬ (Has set.now number) × ¬ (Has other.now number))) }
{
    let mut either = set.copy(alloc)?;
    either.union(other);
    absent(alloc, &either)
}

impl Search<'_> {
    /// The set with all numbers of a range, where it does not answer the query. None comes where it
    /// does.
    fn whole(
        &self,
        alloc: Global,
        set: &RowBits,
        from: usize,
        to: usize,
    ) -> Result<Option<RowBits>, OutOfMemory>
        requires search { IsSearch self.now.catalogue.now self.now.query.now self.now.plan.now
            self.now.expanded.now }
        requires count { length set.now ≡ length self.now.plan.now.atoms }
        requires in_range { to ≤ length set.now }
        ensures { IfOk result (λ outcome. MatchOption outcome
            ((more : List Bool) × IsWithRange set.now from to more
            × Answers self.now.catalogue.now self.now.query.now self.now.plan.now more)
            (λ more. IsWithRange set.now from to more
            × ¬ (Answers self.now.catalogue.now self.now.query.now self.now.plan.now more))) }
    {
        let more = with_range(alloc, set, from, to)?;
        if self.answers(alloc, &more)? {
            return Ok(None);
        }
        Ok(Some(more))
    }

    /// A set that has the set's numbers and does not answer the query. It is the set grown by
    /// numbers from a range: by the whole of it, or else by its first half and then by its second.
    fn grown(
        &self,
        alloc: Global,
        set: &RowBits,
        from: usize,
        to: usize,
    ) -> Result<RowBits, OutOfMemory>
        requires search { IsSearch self.now.catalogue.now self.now.query.now self.now.plan.now
            self.now.expanded.now }
        requires count { length set.now ≡ length self.now.plan.now.atoms }
        requires fails { ¬ (Answers self.now.catalogue.now self.now.query.now self.now.plan.now
            set.now) }
        requires in_range { to ≤ length set.now }
        ensures { IfOk result (FailsWith (length self.now.plan.now.atoms)
            (Answers self.now.catalogue.now self.now.query.now self.now.plan.now) set.now) }
    {
        let whole = self.whole(alloc, set, from, to)?;
        if let Some(more) = whole {
            return Ok(more);
        }
        if to <= from || to - from == 1 {
            return set.copy(alloc);
        }
        let middle = from + (to - from) / 2;
        let half = self.grown(alloc, set, from, middle)?;
        self.grown(alloc, &half, middle, to)
    }

    /// Puts a set that has the set's numbers and does not answer the query at the end of the known
    /// ones.
    fn add_failing(
        &self,
        alloc: Global,
        set: &RowBits,
        failing: &mut SetList,
    ) -> Result<(), OutOfMemory>
        requires search { IsSearch self.now.catalogue.now self.now.query.now self.now.plan.now
            self.now.expanded.now }
        requires count { length set.now ≡ length self.now.plan.now.atoms }
        requires fails { ¬ (Answers self.now.catalogue.now self.now.query.now self.now.plan.now
            set.now) }
        ensures { OnOk result ((failed : List Bool) × FailsWith (length self.now.plan.now.atoms)
            (Answers self.now.catalogue.now self.now.query.now self.now.plan.now) set.now failed
            × (failing.new ≡ failing.old ++ failed ∷ [])) }
    {
        let failed = self.grown(alloc, set, 0, set.count())?;
        failing.push(failed)
    }

    /// The place of a known set that has the set's numbers and does not answer the query. Where
    /// none is known, one is put at the end of the known ones. None comes only where the set
    /// answers the query.
    fn failing_with(
        &self,
        alloc: Global,
        set: &RowBits,
        failing: &mut SetList,
    ) -> Result<Option<usize>, OutOfMemory>
        requires search { IsSearch self.now.catalogue.now self.now.query.now self.now.plan.now
            self.now.expanded.now }
        requires count { length set.now ≡ length self.now.plan.now.atoms }
        requires failing { AreFailing (length self.now.plan.now.atoms)
            (Answers self.now.catalogue.now self.now.query.now self.now.plan.now) failing.old }
        ensures failing { OnOk result (AreFailing (length self.now.plan.now.atoms)
            (Answers self.now.catalogue.now self.now.query.now self.now.plan.now) failing.new) }
        ensures failed { IfOk result (λ outcome. MatchOption outcome
            (Answers self.now.catalogue.now self.now.query.now self.now.plan.now set.now)
            (FailsAt (length self.now.plan.now.atoms)
            (Answers self.now.catalogue.now self.now.query.now self.now.plan.now)
            failing.new set.now)) }
        ensures known { OnOk result ((failing.new ≡ failing.old)
            ⊎ ((failed : List Bool) × (failing.new ≡ failing.old ++ failed ∷ []))) }
    {
        if let Some(place) = superset_in(failing, set) {
            return Ok(Some(place));
        }
        if self.answers(alloc, set)? {
            return Ok(None);
        }
        let place = failing.len();
        self.add_failing(alloc, set, failing)?;
        Ok(Some(place))
    }

    /// Tries every set of the plan's atoms.
    pub fn visit_all(&self, alloc: Global, found: &mut Products) -> Result<(), OutOfMemory>
        requires search { IsSearch self.now.catalogue.now self.now.query.now self.now.plan.now
            self.now.expanded.now }
        requires rises { Rises (length self.now.plan.now.atoms)
            (Answers self.now.catalogue.now self.now.query.now self.now.plan.now) }
        requires same_count { found.old.count ≡ length self.now.plan.now.atoms }
        ensures count { OnOk result (found.new.count ≡ found.old.count) }
        ensures visited { OnOk result (Visited
            (Answers self.now.catalogue.now self.now.query.now self.now.plan.now)
            (λ other. length other ≡ length self.now.plan.now.atoms)
            found.old.sets found.new.sets) }
    {
        let mut failing = List::new(alloc);
        let none = RowBits::new(alloc, self.plan.atoms.len())?;
        self.visit(alloc, &none, &none, found, &mut failing)
    }

    /// Tries each set that has the set's numbers and none of those left out. Where the set does not
    /// answer the query, a set is found that has its numbers and does not answer it either, and
    /// each set that answers has a number which that one lacks. Source: the tree of hitting sets
    /// (Reiter 1987).
    #[cycle(visit)]
    pub fn visit(
        &self,
        alloc: Global,
        set: &RowBits,
        left_out: &RowBits,
        found: &mut Products,
        failing: &mut SetList,
    ) -> Result<(), OutOfMemory>
        requires search { IsSearch self.now.catalogue.now self.now.query.now self.now.plan.now
            self.now.expanded.now }
        requires rises { Rises (length self.now.plan.now.atoms)
            (Answers self.now.catalogue.now self.now.query.now self.now.plan.now) }
        requires count { length set.now ≡ length self.now.plan.now.atoms }
        requires left_out { length left_out.now ≡ length self.now.plan.now.atoms }
        requires same_count { found.old.count ≡ length self.now.plan.now.atoms }
        requires failing { AreFailing (length self.now.plan.now.atoms)
            (Answers self.now.catalogue.now self.now.query.now self.now.plan.now) failing.old }
        ensures count { OnOk result (found.new.count ≡ found.old.count) }
        ensures failing { OnOk result (AreFailing (length self.now.plan.now.atoms)
            (Answers self.now.catalogue.now self.now.query.now self.now.plan.now) failing.new) }
        ensures visited { OnOk result (Visited
            (Answers self.now.catalogue.now self.now.query.now self.now.plan.now)
            (IsBetween set.now left_out.now) found.old.sets found.new.sets) }
    {
        if found.covered(set) {
            return Ok(());
        }
        let outcome = self.failing_with(alloc, set, failing)?;
        match outcome {
            None => {
                found.add(alloc, set)?;
                Ok(())
            }
            Some(place) => self.visit_outside(alloc, set, left_out, place, found, failing),
        }
    }

    /// Tries each set that has the set's numbers and none of those left out, where the known set at
    /// the place has the set's numbers too and does not answer the query: each set that answers has
    /// a number which that one lacks.
    #[cycle(visit)]
    fn visit_outside(
        &self,
        alloc: Global,
        set: &RowBits,
        left_out: &RowBits,
        place: usize,
        found: &mut Products,
        failing: &mut SetList,
    ) -> Result<(), OutOfMemory>
        requires search { IsSearch self.now.catalogue.now self.now.query.now self.now.plan.now
            self.now.expanded.now }
        requires rises { Rises (length self.now.plan.now.atoms)
            (Answers self.now.catalogue.now self.now.query.now self.now.plan.now) }
        requires count { length set.now ≡ length self.now.plan.now.atoms }
        requires left_out { length left_out.now ≡ length self.now.plan.now.atoms }
        requires failed { FailsAt (length self.now.plan.now.atoms)
            (Answers self.now.catalogue.now self.now.query.now self.now.plan.now)
            failing.old set.now place }
        requires same_count { found.old.count ≡ length self.now.plan.now.atoms }
        requires failing { AreFailing (length self.now.plan.now.atoms)
            (Answers self.now.catalogue.now self.now.query.now self.now.plan.now) failing.old }
        ensures count { OnOk result (found.new.count ≡ found.old.count) }
        ensures failing { OnOk result (AreFailing (length self.now.plan.now.atoms)
            (Answers self.now.catalogue.now self.now.query.now self.now.plan.now) failing.new) }
        ensures visited { OnOk result (Visited
            (Answers self.now.catalogue.now self.now.query.now self.now.plan.now)
            (IsBetween set.now left_out.now) found.old.sets found.new.sets) }
    {
        let numbers = absent_in_both(alloc, failing.item(place), left_out)?;
        self.visit_by(alloc, set, left_out, numbers.items(), found, failing)
    }

    /// Tries each set that has the set's numbers, none of those left out, and one of the further
    /// numbers.
    #[cycle(visit)]
    fn visit_by(
        &self,
        alloc: Global,
        set: &RowBits,
        left_out: &RowBits,
        numbers: &[usize],
        found: &mut Products,
        failing: &mut SetList,
    ) -> Result<(), OutOfMemory>
        requires search { IsSearch self.now.catalogue.now self.now.query.now self.now.plan.now
            self.now.expanded.now }
        requires rises { Rises (length self.now.plan.now.atoms)
            (Answers self.now.catalogue.now self.now.query.now self.now.plan.now) }
        requires count { length set.now ≡ length self.now.plan.now.atoms }
        requires left_out { length left_out.now ≡ length self.now.plan.now.atoms }
        requires numbers { (number : ℕ) → Contains numbers.now number
            → (number < length self.now.plan.now.atoms) × ¬ (Has set.now number) }
        requires same_count { found.old.count ≡ length self.now.plan.now.atoms }
        requires failing { AreFailing (length self.now.plan.now.atoms)
            (Answers self.now.catalogue.now self.now.query.now self.now.plan.now) failing.old }
        ensures count { OnOk result (found.new.count ≡ found.old.count) }
        ensures failing { OnOk result (AreFailing (length self.now.plan.now.atoms)
            (Answers self.now.catalogue.now self.now.query.now self.now.plan.now) failing.new) }
        ensures visited { OnOk result (Visited
            (Answers self.now.catalogue.now self.now.query.now self.now.plan.now)
            (λ other. IsBetween set.now left_out.now other × HasOneOf numbers.now other)
            found.old.sets found.new.sets) }
    {
        let mut earlier = left_out.copy(alloc)?;
        'numbers: for number in numbers {
            self.visit_more(alloc, set, *number, &earlier, found, failing)?;
            earlier.insert(*number);
        }
        Ok(())
    }

    /// Tries each set that has the set's numbers and the further one, and none of those left out.
    #[cycle(visit)]
    fn visit_more(
        &self,
        alloc: Global,
        set: &RowBits,
        number: usize,
        left_out: &RowBits,
        found: &mut Products,
        failing: &mut SetList,
    ) -> Result<(), OutOfMemory>
        requires search { IsSearch self.now.catalogue.now self.now.query.now self.now.plan.now
            self.now.expanded.now }
        requires rises { Rises (length self.now.plan.now.atoms)
            (Answers self.now.catalogue.now self.now.query.now self.now.plan.now) }
        requires count { length set.now ≡ length self.now.plan.now.atoms }
        requires further { (number < length self.now.plan.now.atoms) × ¬ (Has set.now number) }
        requires left_out { length left_out.now ≡ length self.now.plan.now.atoms }
        requires same_count { found.old.count ≡ length self.now.plan.now.atoms }
        requires failing { AreFailing (length self.now.plan.now.atoms)
            (Answers self.now.catalogue.now self.now.query.now self.now.plan.now) failing.old }
        ensures count { OnOk result (found.new.count ≡ found.old.count) }
        ensures failing { OnOk result (AreFailing (length self.now.plan.now.atoms)
            (Answers self.now.catalogue.now self.now.query.now self.now.plan.now) failing.new) }
        ensures visited { OnOk result (Visited
            (Answers self.now.catalogue.now self.now.query.now self.now.plan.now)
            (λ other. IsBetween set.now left_out.now other × Has other number)
            found.old.sets found.new.sets) }
    {
        let more = with_number(alloc, set, number)?;
        self.visit(alloc, &more, left_out, found, failing)
    }
}
