// The solver: conflict-driven clause learning with a log of its resolutions.
ghost use Rattle.std.specs.Prelude.{◌≡◌, ◌≤◌, ◌<◌, ◌+◌, ◌-◌, ◌++◌, ◌^◌, [], IfOk, OnOk, IfSome, IfNone, IsTrue, IsNone, true, false, length};
ghost use Rattle.resolution_proof.specs.Literal.{mentions};
ghost use Rattle.resolution_proof.specs.Clause.{is_among};
ghost use Rattle.cdcl_proof.specs.Order.{Waits, KeepsWaiting};
ghost use Rattle.resolution_proof.specs.Replay.{derives, learnt_clauses};
ghost use Rattle.resolution_proof.specs.Regular.{is_regular};
ghost use Rattle.resolution_proof.specs.Fresh.{is_closed};
ghost use Rattle.clause_learning.specs.Trail.{literals, entry_at, NoDecision, IsTotal};
ghost use Rattle.cdcl_proof.specs.Store.{IsKept, steps_of};
ghost use Rattle.clause_learning.specs.Propagation.{IsConflict, IsOutcome};
ghost use Rattle.resolution_proof.specs.Proof.{Refutes};
ghost use Rattle.cdcl_proof.specs.Answer.{Answers, IsDecided, IsSatisfied};
ghost use Rattle.cdcl_proof.specs.Search.{IsSearching, AllWait, WaitFrom, OthersWait};
ghost use Rattle.cdcl_proof.specs.Sweeping.{IsSwept};

use crate::guide::{Guide, NoPairs};
use crate::order::Order;
use crate::restarts::Restarts;
use crate::sweeping::Swept;
use clause_learning::learning::{Depth, LearntClause, learn, refute};
use clause_learning::marked::Marked;
use clause_learning::watched::Watched;
use resolution_proof::assignment::Assignment;
use resolution_proof::clause::Clause;
use resolution_proof::cnf::Cnf;
use resolution_proof::literal::Literal;
use resolution_proof::log::{HintList, Log, Step};
use std::alloc::{AllocError, Global};

/// What the solver found of a formula.
#[derive(Drop)]
pub enum Answer {
    /// No assignment satisfies it: the log ends in the empty clause.
    Refuted(Log),
    /// This assignment satisfies it.
    Satisfied(Assignment),
    /// The budget's number of clauses was learnt with no answer.
    Spent(Log),
}

/// Decides the formula by conflict-driven clause learning (Marques-Silva and Sakallah, GRASP, 1996; the activity
/// order after Moskewicz et al., Chaff, 2001), learning at most `budget` clauses. The only error is running out of memory.
///
/// Nothing is taken out of the log, so memory grows with it: 24 bytes for each literal of a learnt clause (16 in the
/// log, 8 to propagate with) and 16 for each hint, besides about 150 for the clause itself.
pub fn solve(alloc: Global, cnf: &Cnf, budget: u64) -> Result<Answer, AllocError>
    requires { 1 ≤ budget }
    ensures answers { IfOk result (Answers cnf.now budget) }
    ensures decided { 3 ^ cnf.now.variables ≤ budget → IfOk result IsDecided }
{
    let mut guide = NoPairs;
    let answer = solve_guided(alloc, cnf, &mut guide, budget)?;
    Ok(answer)
}

/// The same, but the guide's pairs are tried first, each at the cost of 1,000 conflicts at most, and no more of them
/// than four for each variable and 64. Where a formula says that two circuits differ, and the guide proposes what their
/// inner signals have in common, such a sweep often leaves little to search (Mishchenko, Chatterjee, Brayton and Eén,
/// Improvements to combinational equivalence checking, 2006). What the guide answers decides what is learnt, and no more.
pub fn solve_guided<G: Guide>(
    alloc: Global,
    cnf: &Cnf,
    guide: &mut G,
    budget: u64,
) -> Result<Answer, AllocError>
    requires { 1 ≤ budget }
    ensures answers { IfOk result (Answers cnf.now budget) }
    ensures decided { 3 ^ cnf.now.variables ≤ budget → IfOk result IsDecided }
{
    let mut search = Search::new(alloc, cnf)?;
    let swept = search.sweep(alloc, guide, budget)?;
    let answer = search.go_on(alloc, swept, budget)?;
    Ok(answer)
}

/// A search: the clauses and the trail, the chains of the learnt clauses, the order of decisions, saved phases, and
/// marks for the analysis of a conflict.
#[derive(Drop)]
pub(crate) struct Search<'a> {
    pub(crate) cnf: &'a Cnf,
    pub(crate) watched: Watched,
    pub(crate) chains: Vec<HintList>,
    pub(crate) order: Order,
    pub(crate) phases: Vec<bool>,
    pub(crate) restarts: Restarts,
    pub(crate) seen: Marked,
}

impl<'a> Search<'a> {
    fn new(alloc: Global, cnf: &'a Cnf) -> Result<Search<'a>, AllocError>
        ensures searching { IfOk result IsSearching }
        ensures waiting { IfOk result AllWait }
        ensures formula { IfOk result (λ s. s.cnf.now ≡ cnf.now) }
        ensures none { IfOk result (λ s. s.chains.items ≡ []) }
    {
        let variables = cnf.variables();
        if variables >= 0x8000_0000 {
            return Err(AllocError);
        }
        Ok(Search {
            cnf,
            watched: Watched::new(alloc, cnf)?,
            chains: Vec::new(alloc),
            order: Order::new(alloc, variables)?,
            phases: vec![in alloc; false; variables as usize]?,
            restarts: Restarts::new(),
            seen: Marked::new(alloc, variables)?,
        })
    }

    /// Goes on after the sweep.
    fn go_on(self, alloc: Global, swept: Swept, budget: u64) -> Result<Answer, AllocError>
        requires searching { IsSearching self }
        requires waiting { AllWait self }
        requires swept { IsSwept budget self swept }
        ensures answers { IfOk result (Answers self.entry.cnf.now budget) }
        ensures decided { 3 ^ self.entry.cnf.now.variables ≤ budget → IfOk result IsDecided }
    {
        match swept {
            Swept::Open => self.run(alloc, budget),
            Swept::Conflict(conflict) => { Ok(Answer::Refuted(self.refutation(alloc, conflict)?)) }
            Swept::Spent => self.give_up(alloc, budget),
        }
    }

    /// Gives up with the budget's number of clauses.
    fn give_up(self, alloc: Global, budget: u64) -> Result<Answer, AllocError>
        requires searching { IsSearching self }
        requires spent { length self.chains.items ≡ budget }
        ensures answers { IfOk result (Answers self.entry.cnf.now budget) }
        ensures decided { 3 ^ self.entry.cnf.now.variables ≤ budget → IfOk result IsDecided }
    {
        Ok(Answer::Spent(Log::from_vec(self.into_steps(alloc)?)))
    }

    /// The log that ends with a clause that is false, where no decision is left to take back.
    fn refutation(self, alloc: Global, conflict: u64) -> Result<Log, AllocError>
        requires searching { IsSearching self }
        requires conflict { IsConflict self.watched.clauses (literals self.watched.entries) conflict }
        requires decisions { NoDecision self.watched.entries 0 (length self.watched.entries) }
        ensures { IfOk result (Refutes self.entry.cnf.now) }
    {
        let mut search = self;
        let step = search.refute(alloc, conflict)?;
        let log = search.into_refutation(alloc, step)?;
        Ok(log)
    }

    /// Searches until there is an answer.
    fn run(self, alloc: Global, budget: u64) -> Result<Answer, AllocError>
        requires searching { IsSearching self }
        requires waiting { AllWait self }
        requires budget { length self.chains.items < budget }
        ensures answers { IfOk result (Answers self.entry.cnf.now budget) }
        ensures decided { 3 ^ self.entry.cnf.now.variables ≤ budget → IfOk result IsDecided }
    {
        let mut search = self;
        loop {
            match search.propagate()? {
                Some(conflict) => match search.last_decision() {
                    Some(floor) => {
                        search.resolve_conflict(alloc, conflict, floor, Depth::FirstPoint)?;
                        if search.chains.len() as u64 == budget {
                            return search.give_up(alloc, budget);
                        }
                        search.restart_if_due()?;
                    }
                    None => {
                        return Ok(Answer::Refuted(search.refutation(alloc, conflict)?));
                    }
                },
                None => {
                    if !search.decide() {
                        return search.into_assignment(alloc);
                    }
                }
            }
        }
    }

    /// The variable's saved phase.
    pub(crate) fn phase(&self, variable: u64) -> bool {
        let index = variable.saturating_sub(1) as usize;
        self.phases.get(index).copied().unwrap_or(false)
    }

    /// Propagates until nothing more follows. The result is the number of a false clause, if there is one.
    pub(crate) fn propagate(&mut self) -> Result<Option<u64>, AllocError>
        requires { IsSearching self.old }
        ensures searching { IfOk result (λ _. IsSearching self.new) }
        ensures waiting { AllWait self.old → IfOk result (λ _. AllWait self.new) }
        ensures formula { IfOk result (λ _. self.new.cnf.now ≡ self.old.cnf.now) }
        ensures chains { IfOk result (λ _. self.new.chains ≡ self.old.chains) }
        ensures longer { IfOk result (λ _. length self.old.watched.entries ≤ length self.new.watched.entries) }
        ensures outcome { IfOk result (IsOutcome self.new.watched.clauses (literals self.new.watched.entries)) }
    {
        let conflict = self.watched.propagate()?;
        Ok(conflict)
    }

    /// The position of the newest decision, if there is one.
    pub(crate) fn last_decision(&self) -> Option<usize>
        ensures decision { IfSome result (λ c. (c < length self.now.watched.entries) × IsNone (entry_at self.now.watched.entries c).reason × NoDecision self.now.watched.entries (c + 1) (length self.now.watched.entries)) }
        ensures none { IfNone result (NoDecision self.now.watched.entries 0 (length self.now.watched.entries)) }
    {
        self.watched.trail().last_decision()
    }

    /// Learns a clause from the conflict, and backjumps to the highest level of its literals but for the newest.
    pub(crate) fn resolve_conflict(
        &mut self,
        alloc: Global,
        conflict: u64,
        floor: usize,
        depth: Depth,
    ) -> Result<(), AllocError>
        requires searching { IsSearching self.old }
        requires waiting { AllWait self.old }
        requires conflict { IsConflict self.old.watched.clauses (literals self.old.watched.entries) conflict }
        requires floor { floor < length self.old.watched.entries }
        requires decision { IsNone (entry_at self.old.watched.entries floor).reason }
        requires newest { NoDecision self.old.watched.entries (floor + 1) (length self.old.watched.entries) }
        ensures searching { IfOk result (λ _. IsSearching self.new) }
        ensures waiting { IfOk result (λ _. AllWait self.new) }
        ensures formula { IfOk result (λ _. self.new.cnf.now ≡ self.old.cnf.now) }
        ensures count { IfOk result (λ _. length self.new.chains.items ≡ length self.old.chains.items + 1) }
    {
        let learnt = learn(
            alloc,
            self.watched.clauses(),
            self.watched.trail(),
            &mut self.seen,
            conflict,
            floor,
            depth,
        )?;
        let LearntClause { step, position } = learnt;
        let Step { clause, hints } = step;
        self.order.bump_all(hints.as_slice(), clause.as_slice());
        self.insert_variables(position)?;
        self.watched.back_to(position as u64);
        self.watched.learn(clause)?;
        self.chains.push(hints)?;
        Ok(())
    }

    /// Takes all decisions back, if a restart is due.
    fn restart_if_due(&mut self) -> Result<(), AllocError>
        requires searching { IsSearching self.old }
        requires waiting { AllWait self.old }
        ensures searching { IfOk result (λ _. IsSearching self.new) }
        ensures waiting { IfOk result (λ _. AllWait self.new) }
        ensures formula { self.new.cnf.now ≡ self.old.cnf.now }
        ensures chains { self.new.chains ≡ self.old.chains }
    {
        if !self.restarts.is_due() {
            return Ok(());
        }
        self.back_to_root()?;
        Ok(())
    }

    /// Takes all decisions back.
    pub(crate) fn back_to_root(&mut self) -> Result<(), AllocError>
        requires searching { IsSearching self.old }
        requires waiting { AllWait self.old }
        ensures searching { IfOk result (λ _. IsSearching self.new) }
        ensures waiting { IfOk result (λ _. AllWait self.new) }
        ensures formula { self.new.cnf.now ≡ self.old.cnf.now }
        ensures chains { self.new.chains ≡ self.old.chains }
    {
        match self.watched.trail().last_decision() {
            Some(last) => {
                let first = self.watched.trail().decision_from(0, last);
                self.insert_variables(first)?;
                self.watched.back_to(first as u64);
                Ok(())
            }
            None => Ok(()),
        }
    }

    /// The step that ends a refutation: no decision is left to take back.
    fn refute(&mut self, alloc: Global, conflict: u64) -> Result<Step, AllocError>
        requires searching { IsSearching self.old }
        requires conflict { IsConflict self.old.watched.clauses (literals self.old.watched.entries) conflict }
        requires decisions { NoDecision self.old.watched.entries 0 (length self.old.watched.entries) }
        ensures searching { IfOk result (λ _. IsSearching self.new) }
        ensures watched { self.new.watched ≡ self.old.watched }
        ensures formula { self.new.cnf.now ≡ self.old.cnf.now }
        ensures chains { self.new.chains ≡ self.old.chains }
        ensures empty { IfOk result (λ s. s.clause ≡ []) }
        ensures derived { IfOk result (λ s. derives self.old.watched.clauses s.hints [] ≡ true) }
        ensures regular { IfOk result (λ s. is_regular self.old.watched.clauses s.hints ≡ true) }
    {
        let step = refute(
            alloc,
            self.watched.clauses(),
            self.watched.trail(),
            &mut self.seen,
            conflict,
        )?;
        Ok(step)
    }

    /// Puts the variables of the trail from the position on back among those that wait, and saves their phases.
    fn insert_variables(&mut self, position: usize) -> Result<(), AllocError>
        requires searching { IsSearching self.old }
        requires waiting { AllWait self.old }
        requires position { position ≤ length self.old.watched.entries }
        ensures searching { IsSearching self.new }
        ensures formula { self.new.cnf.now ≡ self.old.cnf.now }
        ensures chains { self.new.chains ≡ self.old.chains }
        ensures watched { self.new.watched ≡ self.old.watched }
        ensures waiting { OnOk result (WaitFrom self.new position) }
    {
        for index in position..self.watched.trail().len() {
            let entry = self.watched.trail().entry(index);
            self.insert_variable(entry.literal)?;
        }
        Ok(())
    }

    /// Puts the variable of the literal back among those that wait, and saves its phase.
    fn insert_variable(&mut self, literal: Literal) -> Result<(), AllocError>
        requires searching { IsSearching self.old }
        requires among { is_among self.old.watched.variables literal ≡ true }
        ensures searching { IsSearching self.new }
        ensures formula { self.new.cnf.now ≡ self.old.cnf.now }
        ensures chains { self.new.chains ≡ self.old.chains }
        ensures watched { self.new.watched ≡ self.old.watched }
        ensures waits { OnOk result (Waits self.new.order.heap.items literal.variable) }
        ensures kept { KeepsWaiting self.old.order.heap.items self.new.order.heap.items }
    {
        self.order.insert(literal.variable)?;
        self.phases[literal.variable as usize - 1] = literal.positive;
        Ok(())
    }

    /// Assumes a literal of the unassigned variable of the highest activity, with its saved phase. The result is whether
    /// there was one.
    fn decide(&mut self) -> bool
        requires searching { IsSearching self.old }
        requires waiting { AllWait self.old }
        requires closed { is_closed (literals self.old.watched.entries) self.old.watched.clauses ≡ true }
        ensures searching { IsSearching self.new }
        ensures waiting { AllWait self.new }
        ensures formula { self.new.cnf.now ≡ self.old.cnf.now }
        ensures chains { self.new.chains ≡ self.old.chains }
        ensures longer { IsTrue result → length self.new.watched.entries ≡ length self.old.watched.entries + 1 }
        ensures room { IsTrue result → length self.new.watched.entries ≤ self.new.watched.variables }
        ensures same { result ≡ false → self.new.watched ≡ self.old.watched }
        ensures total { result ≡ false → IsTotal self.new.watched.variables (literals self.new.watched.entries) }
    {
        match self.pop_unassigned() {
            Some(variable) => {
                let positive = self.phases[variable as usize - 1];
                self.watched.assume(Literal { variable, positive });
                true
            }
            None => false,
        }
    }

    /// Takes the unassigned variable of the highest activity out of those that wait.
    fn pop_unassigned(&mut self) -> Option<u64>
        requires searching { IsSearching self.old }
        requires waiting { AllWait self.old }
        ensures searching { IsSearching self.new }
        ensures formula { self.new.cnf.now ≡ self.old.cnf.now }
        ensures chains { self.new.chains ≡ self.old.chains }
        ensures watched { self.new.watched ≡ self.old.watched }
        ensures some { IfSome result (λ v. (1 ≤ v) × (v ≤ self.new.watched.variables) × (mentions (literals self.new.watched.entries) v ≡ false)) }
        ensures others { IfSome result (OthersWait self.new) }
        ensures none { IfNone result (IsTotal self.new.watched.variables (literals self.new.watched.entries)) }
    {
        while let Some(variable) = self.order.pop() {
            if !self.watched.trail().is_assigned(variable) {
                return Some(variable);
            }
        }
        None
    }

    /// The assignment of a trail that has a value for each variable.
    fn into_assignment(self, alloc: Global) -> Result<Answer, AllocError>
        requires searching { IsSearching self }
        requires closed { is_closed (literals self.watched.entries) self.watched.clauses ≡ true }
        requires total { IsTotal self.watched.variables (literals self.watched.entries) }
        ensures { IfOk result (IsSatisfied self.entry.cnf.now) }
    {
        Ok(Answer::Satisfied(Assignment::from_vec(self.watched.trail().values(alloc)?)))
    }

    /// The learnt clauses with their resolutions.
    fn into_steps(self, alloc: Global) -> Result<Vec<Step>, AllocError>
        requires { IsSearching self }
        ensures kept { IfOk result (λ s. IsKept self.entry.cnf.now s.items) }
        ensures len { IfOk result (λ s. length s.items ≡ length self.entry.chains.items) }
        ensures clauses { IfOk result (λ s. self.entry.watched.clauses ≡ self.entry.cnf.now.clauses ++ learnt_clauses s.items) }
    {
        let Search {
            cnf,
            watched,
            chains,
            order: _,
            phases: _,
            restarts: _,
            seen: _,
        } = self;
        let mut clauses = watched.into_clauses();
        let learnt_clauses = clauses.split_off(cnf.clauses().len())?;
        let steps = steps_of(alloc, learnt_clauses, chains)?;
        Ok(steps)
    }

    /// The log that ends in a step of the empty clause.
    fn into_refutation(self, alloc: Global, step: Step) -> Result<Log, AllocError>
        requires searching { IsSearching self }
        requires derived { derives self.watched.clauses step.hints step.clause ≡ true }
        requires regular { is_regular self.watched.clauses step.hints ≡ true }
        requires empty { step.clause ≡ [] }
        ensures { IfOk result (Refutes self.entry.cnf.now) }
    {
        let mut steps = self.into_steps(alloc)?;
        steps.push(step)?;
        Ok(Log::from_vec(steps))
    }
}

/// The steps of the clauses with the chains that give them.
fn steps_of(
    alloc: Global,
    clauses: Vec<Clause>,
    chains: Vec<HintList>,
) -> Result<Vec<Step>, AllocError>
    requires { length clauses.items ≡ length chains.items }
    ensures { IfOk result (λ s. s.items ≡ steps_of chains.items clauses.items) }
{
    let mut clauses = clauses;
    let mut chains = chains;
    let mut steps = Vec::with_capacity(alloc, chains.len())?;
    while let Some(hints) = chains.pop() {
        if let Some(clause) = clauses.pop() {
            steps.push(Step { clause, hints })?;
        }
    }
    steps.reverse();
    Ok(steps)
}
