//! The verb `templates`: each line is a template, which is answered over the store of a disk.
ghost use Rattle.std.specs.Prelude.{◌≡◌, ◌^◌, true};
ghost use Rattle.std.specs.Io.KnownBytes.{IsAtEnd};
ghost use Rattle.gd_base.specs.Counts.{Rose};
ghost use Rattle.gd_input.specs.Taken.{TakesAtLeast};
ghost use Rattle.gd_words.specs.Verbs.{answers};
ghost use Rattle.gd_top.specs.Answers.{PrintsAnswers};
ghost use Rattle.gd_top.specs.Ends.{IsIdle, Causes, may_tell};
ghost use Rattle.gd_top.specs.Held.{Loads, MayMean, DoesMean};
ghost use Rattle.gd_top.specs.Kept.{Keeps, StaysTold};
ghost use Rattle.gd_top.specs.Stops.{status_of_patterns};

use crate::status::Status;
use gd_disk::disk::Disk;
use gd_outside::sink::Sink;
use gd_outside::source::Source;
use gd_patterns::patterns::answer_templates;
use gd_patterns::stop::PatternStop;
use std::alloc::Global;

/// The status of a run of templates that ended so.
fn status_of(end: Result<(), PatternStop>) -> Status
    ensures { result ≡ status_of_patterns end }
{
    match end {
        Ok(()) => Status::Done,
        Err(PatternStop::Stopped(stop)) => Status::of_answers(stop),
        Err(PatternStop::Unopened(fault)) => Status::of_store(fault),
    }
}

/// Answers the templates of the whole input over the store that a disk holds. The disk is handed
/// back, however it ends.
pub(crate) fn templates_over<D: Disk, S: Source, K: Sink>(
    alloc: Global,
    disk: D,
    source: &mut S,
    sink: &mut K,
) -> (Status, D)
    ensures prints { PrintsAnswers result.0 (Loads (D.content disk))
        (IsIdle source.old source.new sink.old sink.new
        × StaysTold (D.content disk) (D.content result.1) (D.images disk) (D.images result.1))
        (S.left source.old) (K.held sink.old) (K.held sink.new) }
    ensures at_end { result.0 ≡ Status.Done → IsAtEnd (S.left source.new) }
    ensures sent { result.0 ≡ Status.Done → K.sent sink.new ≡ true }
    ensures causes { Causes result.0 (Rose (S.faults source.old) (S.faults source.new))
        (Rose (K.faults sink.old) (K.faults sink.new)) (Rose (D.faults disk) (D.faults result.1))
        (TakesAtLeast (2 ^ 40) (S.left source.old) (S.left source.new) (S.given source.old)
        (S.given source.new)) (MayMean (D.content disk)) (DoesMean (D.content disk)) }
    ensures tells { may_tell answers result.0 ≡ true }
    ensures kept { Keeps (D.content disk) (D.content result.1) (D.images disk) (D.images result.1) }
{
    let (end, disk) = answer_templates(alloc, disk, source, sink);
    (status_of(end), disk)
}
