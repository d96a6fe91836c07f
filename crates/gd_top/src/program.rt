//! The top call.
ghost use Rattle.std.specs.Prelude.{◌≡◌, ◌≢◌, ◌<◌, ◌⊎◌, ◌^◌, ℕ, List, length, true, false, None};
ghost use Rattle.std.specs.Prelude.{Some, IsSomeAnd, []};
ghost use Rattle.std.specs.Io.KnownBytes.{IsAtEnd};
ghost use Rattle.gd_base.specs.Counts.{Rose};
ghost use Rattle.gd_bytes.specs.Disk.{HoldsSame};
ghost use Rattle.gd_bytes.specs.File.{not_store, damaged};
ghost use Rattle.gd_input.specs.Taken.{TakesAtLeast};
ghost use Rattle.gd_words.specs.Verbs as verb;
ghost use Rattle.gd_words.specs.Verbs.{Verb, verb_of, path_of, reads_input, prints_output};
ghost use Rattle.gd_words.specs.Words.{command_of};
ghost use Rattle.gd_top.specs.Answers.{PrintsAnswers};
ghost use Rattle.gd_top.specs.Counted.{PrintsCounted};
ghost use Rattle.gd_top.specs.Dumps.{PrintsDump};
ghost use Rattle.gd_top.specs.Ends.{IsHindered, IsIdle, SendsRounds, RisesAt, is_of_text};
ghost use Rattle.gd_top.specs.Ends.{may_tell};
ghost use Rattle.gd_top.specs.Follows.{LeavesNodeAt, PrintsNode};
ghost use Rattle.gd_top.specs.Generates.{PrintsSummary};
ghost use Rattle.gd_top.specs.Held.{BeginsWith, EndsWith, MayMeanAt, DoesMean, IsSoundAt, told_at};
ghost use Rattle.gd_top.specs.Kept.{Keeps, StaysAt};
ghost use Rattle.gd_top.specs.Replays.{is_told_at, LeavesAt, PrintsEvents};
ghost use Rattle.gd_top.specs.Restores.{LeavesBatchesAt, RestoresText};
ghost use Rattle.gd_top.specs.Serves.{PrintsLines};

use crate::opening::run;
use crate::status::Status;
use gd_base::text::Text;
use gd_disk::shelf::Shelf;
use gd_outside::clock::Clock;
use gd_outside::gate::Gate;
use gd_outside::sink::Sink;
use gd_outside::source::Source;
use gd_words::reader::command;
use std::alloc::Global;
use std::sync::Wait;
use std::thread::Threads;

/// Runs the program. With the words `serve` and its options it opens the store in the file that
/// they name, or an empty one in memory, reads the input to its end, round by round, and prints one
/// reply line for each line that is not blank, in the order of the lines: to a read at a dateline
/// of the store, to a write at the moment of the clock, to any other line its refusal. The sessions
/// of a round are run by as many workers as the words say, each on a thread of its own where one
/// can be made, and held where the gate holds them. Where no memory is left for a reply, the reply
/// line that says so is printed in its place; where the disk fails at a write, the line that says
/// so. The sink is flushed at the end of each round. The status says how the run ended. With the
/// words `replay` and its option it opens the store so too, reads the input to its end, line by
/// line, carries each line out as an event of the core, on one thread, and prints its reply line;
/// the sink is flushed at the end. With the words `gen` and its options it reads no input and opens
/// no file: it serves the lines that a number and a count of nodes stand for over an empty store in
/// memory, prints the one line to which the replies come, and flushes the sink. The device of the
/// file is put back on the shelf, however it ended.
pub fn graphd<
    R: Threads + Wait + Sync,
    S: Source,
    K: Sink,
    F: Shelf,
    C: Clock + Send + Drop,
    G: Gate,
>(
    rt: &R,
    alloc: Global,
    words: &[Text],
    source: &mut S,
    sink: &mut K,
    shelf: &mut F,
    clock: C,
    gate: &G,
) -> Status
    requires { (path : List ℕ) → F.is_out shelf.old path ≡ false }
    ensures back { (path : List ℕ) → F.is_out shelf.new path ≡ false }

    // Words out of the grammar: nothing is read, and nothing printed.
    ensures usage { (result ≡ Status.Usage) → command_of words.now ≡ None }
    ensures usage_found { command_of words.now ≡ None → (result ≡ Status.Usage)
        ⊎ (result ≡ Status.Memory) }
    ensures unread { command_of words.now ≡ None → IsIdle source.old source.new sink.old sink.new }

    // Words that serve. Where the input was read to its end, one legal history explains the whole
    // output for it (`done`). It begins with what the file stood for; the file is left so that it
    // stands for this history, with or without the write that is in doubt; and the shelf counted at
    // least as many faults as lines tell, of which there is none without a file. Where the input
    // could not be read further, the lines of all rounds that lie wholly in what was taken of it
    // were answered so, and no other (`rounds`). At any stop what was printed is a front of an
    // output that is explained so (`front`); without memory the run may also not have begun
    // (`memory`). Where the run did not begin, nothing was read and nothing printed, and the file
    // stands for the same batches as before (`nothing`).
    ensures serves { verb_of words.now ≡ Some verb.serves → PrintsLines result (C.may clock)
        (BeginsWith (F.content shelf.old) (path_of words.now))
        (EndsWith (C.may clock) (F.content shelf.old) (F.images shelf.new) (path_of words.now))
        (RisesAt (path_of words.now) (F.faults shelf.old) (F.faults shelf.new))
        (IsIdle source.old source.new sink.old sink.new
        × StaysAt (F.content shelf.old) (F.content shelf.new) (F.images shelf.old)
        (F.images shelf.new) (path_of words.now))
        (S.left source.old) (S.left source.new) (K.held sink.old) (K.held sink.new) }

    // Words that serve with sessions that keep so many replies each. All is as without that, but
    // that behind the output for the whole input stands a line more, which tells how many reads
    // were answered and, where no put was refused, how many of these found their reply kept, by the
    // definition. Where the sink failed, a front of both was printed.
    ensures cached { (n : ℕ) → verb_of words.now ≡ Some (verb.caches n) → PrintsCounted n result
        (C.may clock) (BeginsWith (F.content shelf.old) (path_of words.now))
        (EndsWith (C.may clock) (F.content shelf.old) (F.images shelf.new) (path_of words.now))
        (RisesAt (path_of words.now) (F.faults shelf.old) (F.faults shelf.new))
        (IsIdle source.old source.new sink.old sink.new
        × StaysAt (F.content shelf.old) (F.content shelf.new) (F.images shelf.old)
        (F.images shelf.new) (path_of words.now))
        (S.left source.old) (S.left source.new) (K.held sink.old) (K.held sink.new) }

    // Words that replay. What was printed is what the definitions' core replies to the lines, from
    // some batches on. Over a file that the shelf does not tell, a line that opens the store again
    // gives a store of some batches, whose number its reply tells.
    // The shelf counted at least as many faults as lines and the status tell, of which there is
    // none without a file. A file that is told stood for these batches, and is left so that it
    // stands for the state that they make, with or without the write that is in doubt.
    ensures events { verb_of words.now ≡ Some verb.replays
        → PrintsEvents result
        (is_told_at (F.content shelf.old) (path_of words.now)) (C.may clock)
        (BeginsWith (F.content shelf.old) (path_of words.now))
        (LeavesAt (F.content shelf.old) (F.images shelf.new) (path_of words.now))
        (RisesAt (path_of words.now) (F.faults shelf.old) (F.faults shelf.new))
        (IsIdle source.old source.new sink.old sink.new
        × StaysAt (F.content shelf.old) (F.content shelf.new) (F.images shelf.old)
        (F.images shelf.new) (path_of words.now))
        (S.left source.old) (K.held sink.old) (K.held sink.new) }

    // Words that dump. What was printed is the text of the batches from the asked number on, of a
    // list for which a file that is told stood; or a front of it, where the sink failed or there was
    // no memory; or nothing, where the store has fewer, which the status tells.
    ensures dumps { (from : ℕ) → verb_of words.now ≡ Some (verb.dumps from) → PrintsDump result
        (BeginsWith (F.content shelf.old) (path_of words.now))
        (IsIdle source.old source.new sink.old sink.new
        × StaysAt (F.content shelf.old) (F.content shelf.new) (F.images shelf.old)
        (F.images shelf.new) (path_of words.now)) from (K.held sink.old) (K.held sink.new) }

    // Words that restore. The batches of the text stand behind those of a list for which a file that
    // is told stood, and the file is left so that it stands for all of these; or the first thing in
    // the text that is refused is told, with the batches of the whole groups before it; or the run
    // stopped, with a front of them in whole groups, and after a failure of the disk with a group of
    // them in doubt.
    ensures restores { verb_of words.now ≡ Some verb.restores → RestoresText result
        (BeginsWith (F.content shelf.old) (path_of words.now))
        (LeavesBatchesAt (F.content shelf.old) (F.images shelf.new) (path_of words.now))
        (IsIdle source.old source.new sink.old sink.new
        × StaysAt (F.content shelf.old) (F.content shelf.new) (F.images shelf.old)
        (F.images shelf.new) (path_of words.now)) (S.left source.old) }

    // Words that follow. What was printed is what the definitions answer to the lines, one after
    // another, by a node over a list for which a file that is told stood; the file is left so that
    // it stands for the node that they make, with or without the group in doubt, and the shelf
    // counted at least as many faults as lines tell.
    ensures follows { verb_of words.now ≡ Some verb.follows → PrintsNode result
        (BeginsWith (F.content shelf.old) (path_of words.now))
        (LeavesNodeAt (F.content shelf.old) (F.images shelf.new) (path_of words.now))
        (RisesAt (path_of words.now) (F.faults shelf.old) (F.faults shelf.new))
        (IsIdle source.old source.new sink.old sink.new
        × StaysAt (F.content shelf.old) (F.content shelf.new) (F.images shelf.old)
        (F.images shelf.new) (path_of words.now))
        (S.left source.old) (K.held sink.old) (K.held sink.new) }

    // Words that answer templates. What was printed is a line for each line of the input: its
    // answer over a list for which a file that is told stood, or that there was no memory.
    ensures answers { verb_of words.now ≡ Some verb.answers → PrintsAnswers result
        (BeginsWith (F.content shelf.old) (path_of words.now))
        (IsIdle source.old source.new sink.old sink.new
        × StaysAt (F.content shelf.old) (F.content shelf.new) (F.images shelf.old)
        (F.images shelf.new) (path_of words.now))
        (S.left source.old) (K.held sink.old) (K.held sink.new) }

    // Words that generate requests. What was printed is one line, and a newline: what an output comes
    // to that one legal history explains for the lines of the number and so many nodes. It begins
    // with no batches, and no line of the output tells a failure of the disk. Where the sink failed
    // a front of that was printed; without memory, also for a reply, nothing. The run ends in no
    // other way.
    ensures generates { (number count : ℕ)
        → verb_of words.now ≡ Some (verb.generates number count) → PrintsSummary result
        (C.may clock) (λ loaded. loaded ≡ []) (λ faults. faults ≡ 0) ⊥ number count
        (K.held sink.old) (K.held sink.new) }

    // What follows here holds with every verb. A run that is done has read its input to the end;
    // one whose verb reads none leaves the source alone.
    ensures at_end { (v : Verb) → verb_of words.now ≡ Some v → reads_input v ≡ true
        → result ≡ Status.Done → IsAtEnd (S.left source.new) }
    ensures no_input { (v : Verb) → verb_of words.now ≡ Some v → reads_input v ≡ false
        → source.new ≡ source.old }

    // With Done all that was printed is sent on; a run of lines sends on what it prints round by
    // round. One whose verb prints nothing leaves the sink alone.
    ensures sent { (v : Verb) → verb_of words.now ≡ Some v → prints_output v ≡ true
        → result ≡ Status.Done → K.sent sink.new ≡ true }
    ensures no_output { (v : Verb) → verb_of words.now ≡ Some v → prints_output v ≡ false
        → sink.new ≡ sink.old }
    ensures rounds_sent { verb_of words.now ≡ Some verb.serves
        → SendsRounds result K.sent sink.old sink.new }
    ensures cached_sent { (n : ℕ) → verb_of words.now ≡ Some (verb.caches n)
        → SendsRounds result K.sent sink.old sink.new }

    // A status that speaks of the input, of the output or of a text comes only with a verb that has
    // one.
    ensures tells { (v : Verb) → verb_of words.now ≡ Some v → may_tell v result ≡ true }

    // Each fault has its cause; without a file the status tells no failure of the disk.
    ensures read_fault { result ≡ Status.ReadFault
        → Rose (S.faults source.old) (S.faults source.new) }
    ensures sink_fault { result ≡ Status.SinkFault → Rose (K.faults sink.old) (K.faults sink.new) }
    ensures disk_fault { result ≡ Status.DiskFault
        → Rose (F.faults shelf.old) (F.faults shelf.new) }
    ensures disk_steady { path_of words.now ≡ None → result ≢ Status.DiskFault }
    ensures too_much { result ≡ Status.TooMuch
        → TakesAtLeast (2 ^ 40) (S.left source.old) (S.left source.new) (S.given source.old)
        (S.given source.new) }

    // What is said of the file is so, and is said where it is so, but for a failure of the disk or
    // want of memory.
    ensures not_store { result ≡ Status.NotStore
        → MayMeanAt (F.content shelf.old) (path_of words.now) not_store }
    ensures damaged { (offset : ℕ) → result ≡ Status.Damaged offset
        → MayMeanAt (F.content shelf.old) (path_of words.now) (damaged offset) }
    ensures not_store_found { DoesMean (told_at (F.content shelf.old) (path_of words.now)) not_store
        → (result ≡ Status.NotStore) ⊎ IsHindered result }
    ensures damaged_found { (offset : ℕ)
        → DoesMean (told_at (F.content shelf.old) (path_of words.now)) (damaged offset)
        → (result ≡ Status.Damaged offset) ⊎ IsHindered result }

    // Whatever the status, the file keeps what it stood for, and one that stands for no batches is
    // left alone.
    ensures kept { (path : List ℕ) → path_of words.now ≡ Some path
        → Keeps (F.content shelf.old path) (F.content shelf.new path) (F.images shelf.old path)
        (F.images shelf.new path) }

    // The shelf keeps every other path.
    ensures others { (other : List ℕ) → path_of words.now ≢ Some other
        → HoldsSame (F.content shelf.old other) (F.content shelf.new other)
        (F.images shelf.old other) (F.images shelf.new other) }

    // With words of the grammar, no fault, a file that is told and stands for some batches or none
    // at all, and input of a known length below 2^40, all is done, or what was asked is refused for
    // the text or the number that was given, but for want of memory.
    ensures complete { command_of words.now ≢ None
        → ¬ Rose (S.faults source.old) (S.faults source.new)
        → ¬ Rose (K.faults sink.old) (K.faults sink.new)
        → ¬ Rose (F.faults shelf.old) (F.faults shelf.new)
        → IsSoundAt (F.content shelf.old) (path_of words.now)
        → IsSomeAnd (S.left source.old) (λ input. length input < 2 ^ 40)
        → ((result ≡ Status.Done) ⊎ (result ≡ Status.Memory)) ⊎ (is_of_text result ≡ true) }
{
    match command(alloc, words) {
        Ok(Some(command)) => run(rt, alloc, &command, source, sink, shelf, clock, gate),
        Ok(None) => Status::Usage,
        Err(_refused) => Status::Memory,
    }
}
