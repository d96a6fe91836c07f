//! What a reading does.
ghost use Rattle.std.specs.Prelude.{◌+◌, ◌<◌, ◌^◌};
ghost use Rattle.gd_read.specs.Marked.{mark_of};
ghost use Rattle.gd_read.specs.Stages.{StageOwes};
ghost use Rattle.gd_read.specs.Rounds.{RoundGoes};
ghost use Rattle.gd_read.specs.Left.{stage_left};

use crate::gathering::Gathering;
use crate::printing::print_on;
use crate::subject::Subject;
use crate::visiting::Visiting;
use gd_base::memory::Memory;
use gd_base::steps::Steps;
use gd_reply::answer::Answer;
use gd_shape::shape::Shape;
use gd_store::view::View;
use gd_window::window::Window;
use std::alloc::Global;

/// What a reading does, one after the other: the places among which the candidates are are visited,
/// and the best rows are kept; then the trees of the rows of the page are gathered; then the page is
/// printed.
#[derive(Drop)]
pub(crate) enum Stage {
    Visiting(Visiting),
    Gathering(Gathering),
    Printing(Shape),
    /// The answer was given, or memory was wanting.
    Spent,
}

/// What a round of a reading comes to.
#[derive(Drop)]
pub(crate) enum Round {
    /// What the query comes to.
    Answer(Answer),
    /// It goes on with this.
    Going(Stage),
}

/// How far a walk over the rows of a page came.
#[derive(Clone, Copy)]
pub(crate) enum Walked {
    /// It came to the end.
    All,
    /// Too many places lie below the next one.
    Crowded,
    /// The budget was spent before.
    Unfinished,
}

impl Stage {
    /// Goes on by a round. `Memory`: an allocation was refused.
    pub(crate) fn go_on<L>(
        self,
        alloc: Global,
        subject: &Subject,
        window: &mut Window,
        view: &View<'_>,
        budget: u64,
        steps: &mut Steps<L>,
    ) -> Result<Round, Memory>
        requires budget { 0 < budget }
        requires owes { StageOwes view.now subject.now self window.old }
        ensures { RoundGoes view.now subject.now
            (λ n. stage_left n view.now (mark_of subject.now.after) self) window.new steps.old
            steps.new (budget + 1024) result }
    {
        match self {
            Stage::Visiting(visiting) => {
                visiting.go_on(alloc, subject, window, view, budget, steps)
            }
            Stage::Gathering(gathering) => {
                gathering.go_on(alloc, subject, window, view, budget, steps)
            }
            Stage::Printing(shape) => {
                print_on(alloc, shape, subject, window, view, budget, steps)
            }
            Stage::Spent => unreachable!(),
        }
    }
}
