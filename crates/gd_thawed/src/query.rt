//! The reading of one query that goes on from a frozen text, and is suspended between slices.
ghost use Rattle.std.specs.Prelude.{◌≡◌, ◌+◌, ◌-◌, ◌<◌, ◌≤◌, ◌^◌, true, min, MatchOption, IfOk, IsNone};
ghost use Rattle.gd_base.specs.Counts.{Rose};
ghost use Rattle.gd_defs.specs.Reply.{Answer as TheAnswer};
ghost use Rattle.gd_reply.specs.Answers.{Tells};
ghost use Rattle.gd_thawed.specs.Query.{IsGoing, Gives, is_unanswered};

use crate::stage::{Round, Stage};
use crate::subject::Subject;
use gd_base::memory::Memory;
use gd_base::steps::Steps;
use gd_iter_core::budget::Budget;
use gd_reply::answer::Answer;
use gd_store::view::View;
use gd_window::window::Window;
use std::alloc::Global;

/// What a slice of the reading of a query comes to.
#[derive(Drop)]
pub enum Turn {
    /// What the query comes to: a page, or the refusal in its place.
    Answer(Answer),
    /// The budget was reached.
    Unfinished,
}

/// The reading of a query that was thawed, which goes on in slices, at its dateline, while others
/// write. `IsGoing` says that it owes an answer over the batches below its dateline: it owes the
/// one that its text owed (`owed_by_text`), and always the same.
#[derive(Drop)]
pub struct ThawedQuery {
    pub(crate) subject: Subject,
    pub(crate) window: Window,
    pub(crate) stage: Stage,
}

impl ThawedQuery {
    /// The dateline at which it reads.
    pub fn dateline(&self) -> u32
        ensures { result ≡ self.now.subject.dateline }
    {
        self.subject.dateline
    }

    /// Goes on by a round: the answer, or none where it owes the same.
    fn round<L>(
        &mut self,
        alloc: Global,
        view: &View<'_>,
        budget: u64,
        steps: &mut Steps<L>,
    ) -> Result<Option<Answer>, Memory>
        requires budget { 0 < budget }
        requires going { (owed : TheAnswer) × IsGoing view.now owed self.old }
        ensures gives { (owed : TheAnswer) → IsGoing view.now owed self.old → IfOk result
            (λ answer. MatchOption answer (IsGoing view.now owed self.new)
            (λ told. Tells owed told)) }
        ensures subject { self.new.subject ≡ self.old.subject }
        ensures counted { IfOk result (λ answer. IsNone answer → Rose steps.old steps.new) }
        ensures work { steps.new ≤ steps.old + budget + 1024 }
        ensures later { steps.old ≤ steps.new }
    {
        let stage = std::mem::replace(&mut self.stage, Stage::Spent);
        match stage.go_on(alloc, &self.subject, &mut self.window, view, budget, steps)? {
            Round::Answer(answer) => Ok(Some(answer)),
            Round::Going(stage) => {
                drop(std::mem::replace(&mut self.stage, stage));
                Ok(None)
            }
        }
    }

    /// Goes on over a view of the reading's dateline, on the store at which it was thawed or a
    /// later one, until the budget of steps is reached or the answer is there: what its text owes
    /// at the dateline. It takes at most 1,024 steps more than the budget. `Memory`: an allocation
    /// was refused; after that, and after an answer, nothing more is to be asked.
    pub fn slice<L>(
        &mut self,
        alloc: Global,
        view: &View<'_>,
        budget: u64,
        steps: &mut Steps<L>,
    ) -> Result<Turn, Memory>
        requires budget { 0 < budget }

        // The view stands for the batches below the dateline, over which it owes some answer.
        requires going { (owed : TheAnswer) × IsGoing view.now owed self.old }

        // It gives the one that it owes.
        ensures answer { (owed : TheAnswer) → IsGoing view.now owed self.old
            → IfOk result (λ turn. Gives owed turn) }

        // It reads the same, whatever it comes to, and owes the same where it is unfinished.
        ensures same { self.new.subject ≡ self.old.subject }
        ensures still { (owed : TheAnswer) → IsGoing view.now owed self.old
            → IfOk result (λ turn. is_unanswered turn ≡ true → IsGoing view.now owed self.new) }
        ensures reached { IfOk result (λ turn. is_unanswered turn ≡ true
            → min (steps.old + budget) (2 ^ 64 - 1) ≤ steps.new) }
        ensures work { steps.new ≤ steps.old + budget + 1024 }
        ensures later { steps.old ≤ steps.new }
    {
        let whole = Budget::new(budget, steps);
        for _round in 0..budget {
            if whole.is_spent(steps) {
                return Ok(Turn::Unfinished);
            }
            let left = whole.left(steps);
            if let Some(answer) = self.round(alloc, view, left, steps)? {
                return Ok(Turn::Answer(answer));
            }
        }
        Ok(Turn::Unfinished)
    }
}
