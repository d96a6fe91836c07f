//! What a reading does.
ghost use Rattle.std.specs.Prelude.{◌+◌, ◌<◌};
ghost use Rattle.gd_defs.specs.Reply.{Answer as TheAnswer};
ghost use Rattle.gd_thawed.specs.Stages.{StageOwes};
ghost use Rattle.gd_thawed.specs.Rounds.{RoundGoes};

use crate::building::Building;
use crate::printing::Printing;
use crate::scanning::Scanning;
use crate::subject::Subject;
use gd_base::memory::Memory;
use gd_base::steps::Steps;
use gd_reply::answer::Answer;
use gd_store::view::View;
use gd_window::window::Window;
use std::alloc::Global;

/// What a reading does, one after the other: candidates are scanned, and the best rows are kept;
/// then the trees of the rows of the page are built; then the page is printed.
#[derive(Drop)]
pub(crate) enum Stage {
    Scanning(Scanning),
    Building(Building),
    Printing(Printing),
    /// The answer was given, or memory was wanting.
    Spent,
}

/// What a round of a reading comes to.
#[derive(Drop)]
pub(crate) enum Round {
    /// The answer.
    Answer(Answer),
    /// It goes on with this.
    Going(Stage),
}

impl Stage {
    /// Goes on by a round. `Memory`: an allocation was refused.
    pub(crate) fn go_on<L>(
        self,
        alloc: Global,
        subject: &Subject,
        window: &mut Window,
        view: &View<'_>,
        budget: u64,
        steps: &mut Steps<L>,
    ) -> Result<Round, Memory>
        requires budget { 0 < budget }
        requires some { (owed : TheAnswer) × StageOwes view.now owed subject.now self window.old }
        ensures { (owed : TheAnswer) → StageOwes view.now owed subject.now self window.old
            → RoundGoes view.now owed subject.now window.new steps.old steps.new (budget + 1024)
            result }
    {
        match self {
            Stage::Scanning(scanning) => {
                scanning.go_on(alloc, subject, window, view, budget, steps)
            }
            Stage::Building(building) => {
                building.go_on(alloc, subject, window, view, budget, steps)
            }
            Stage::Printing(printing) => {
                printing.go_on(alloc, subject, window, view, budget, steps)
            }
            Stage::Spent => unreachable!(),
        }
    }
}
