//! A run of a node, over a disk.
ghost use Rattle.std.specs.Prelude.{◌≡◌, ◌≤◌, ◌^◌, List, None, true, OnOk, IfSome};
ghost use Rattle.std.specs.Io.KnownBytes.{IsAtEnd};
ghost use Rattle.std.specs.Option.{ForSome, is_some};
ghost use Rattle.gd_base.specs.Counts.{Rose, RoseBy};
ghost use Rattle.gd_prim.specs.declared.Batch.{Batch};
ghost use Rattle.gd_bytes.specs.File.{StandsFor, meaning};
ghost use Rattle.gd_input.specs.Taken.{TakesAtLeast};
ghost use Rattle.gd_log.specs.Opening.{IsKept, Refuses};
ghost use Rattle.gd_follow.specs.Node.{HoldsNode};
ghost use Rattle.gd_following.specs.Runs.{Loads, Leaves, HasBatches};
ghost use Rattle.gd_following.specs.Runs.{FollowsAll, FollowsTaken, FollowsFront};
ghost use Rattle.gd_following.specs.Stops.{EndsAs, EndsBy, IfBetween, KeepsAs};

use crate::answering::Following;
use crate::stop::{FollowStop, ended};
use gd_answering::answering::answer_all;
use gd_disk::disk::Disk;
use gd_follow::Node;
use gd_outside::sink::Sink;
use gd_outside::source::Source;
use std::alloc::Global;

/// Answers the lines of the input by a node that was just opened, and hands its disk back.
fn follow_lines<D: Disk, S: Source, K: Sink>(
    alloc: Global,
    node: Node<D>,
    source: &mut S,
    sink: &mut K,
) -> (Result<(), FollowStop>, D)
    requires { node.doubt ≡ None }
    ensures ends { EndsAs result.0
        (IfSome (S.left source.old) (FollowsAll (λ loaded. loaded ≡ node.list)
        (λ last. HoldsNode D.content D.images node → Leaves (D.images result.1) last)
        (RoseBy (D.faults node.log.disk) (D.faults result.1)) (K.held sink.old) (K.held sink.new)))
        (IfSome (S.left source.old) (FollowsTaken (λ loaded. loaded ≡ node.list)
        (λ last. HoldsNode D.content D.images node → Leaves (D.images result.1) last)
        (RoseBy (D.faults node.log.disk) (D.faults result.1)) (K.held sink.old) (K.held sink.new)))
        (IfSome (S.left source.old) (FollowsFront (λ loaded. loaded ≡ node.list)
        (λ last. HoldsNode D.content D.images node → Leaves (D.images result.1) last)
        (RoseBy (D.faults node.log.disk) (D.faults result.1)) (K.held sink.old) (K.held sink.new)))
        ⊥ }
    ensures at_end { OnOk result.0 (IsAtEnd (S.left source.new)) }
    ensures sent { IfBetween result.0 (K.sent sink.new ≡ true) }
    ensures caused { EndsBy result.0 (Rose (S.faults source.old) (S.faults source.new))
        (Rose (K.faults sink.old) (K.faults sink.new)) ⊥
        (TakesAtLeast (2 ^ 40) (S.left source.old) (S.left source.new) (S.given source.old)
        (S.given source.new)) }
    ensures disk { D.faults node.log.disk ≤ D.faults result.1 }
    ensures kept { HoldsNode D.content D.images node → KeepsAs result.0
        (HasBatches (D.images result.1) node.list) (λ _. ⊥) }
    ensures told { is_some (D.content result.1) ≡ is_some (D.content node.log.disk) }
{
    let mut following = Following::of(node);
    let end = answer_all(alloc, &mut following, source, sink);
    (ended(end), following.into_node().close())
}

/// Runs a node over the store that a disk holds: opens it, reads the lines of the input to its end,
/// and prints one reply line for each that is not blank. An ask is answered by a group of the
/// node's batches, a group that is given is taken, or refused, and a read is answered at the newest
/// state. All is sent on behind each reply, before the next line is read. The disk comes back,
/// however it ends.
///
/// `Unopened`: the store was not opened, for the fault that it tells; nothing was read then, and
/// nothing printed. `Stopped`: the input or the output stopped.
pub fn follow<D: Disk, S: Source, K: Sink>(
    alloc: Global,
    disk: D,
    source: &mut S,
    sink: &mut K,
) -> (Result<(), FollowStop>, D)
    // What is printed is what the definitions say of a node and these lines, one after another,
    // from a list of batches for which a file that is told stands: of all of them, or where no
    // further line was read of those before, or where the sink failed a front of that. All that a
    // stop leaves of such a file then stands for the node that they make, with all or none of the
    // group in doubt. The disk's count of faults rose by at least as many as there are lines that
    // tell one. Where the store was not opened nothing is read or printed.
    ensures ends { EndsAs result.0
        (IfSome (S.left source.old) (FollowsAll (Loads (D.content disk))
        (λ last. ForSome (D.content disk) (λ _. Leaves (D.images result.1) last))
        (RoseBy (D.faults disk) (D.faults result.1)) (K.held sink.old) (K.held sink.new)))
        (IfSome (S.left source.old) (FollowsTaken (Loads (D.content disk))
        (λ last. ForSome (D.content disk) (λ _. Leaves (D.images result.1) last))
        (RoseBy (D.faults disk) (D.faults result.1)) (K.held sink.old) (K.held sink.new)))
        (IfSome (S.left source.old) (FollowsFront (Loads (D.content disk))
        (λ last. ForSome (D.content disk) (λ _. Leaves (D.images result.1) last))
        (RoseBy (D.faults disk) (D.faults result.1)) (K.held sink.old) (K.held sink.new)))
        ((source.new ≡ source.old) × (sink.new ≡ sink.old)) }
    ensures at_end { OnOk result.0 (IsAtEnd (S.left source.new)) }

    // Unless the sink failed, all that was printed is sent on.
    ensures sent { IfBetween result.0 (K.sent sink.new ≡ true) }

    // Each stop has its cause.
    ensures caused { EndsBy result.0 (Rose (S.faults source.old) (S.faults source.new))
        (Rose (K.faults sink.old) (K.faults sink.new))
        (Rose (D.faults disk) (D.faults result.1))
        (TakesAtLeast (2 ^ 40) (S.left source.old) (S.left source.new) (S.given source.old)
        (S.given source.new)) }
    ensures disk { D.faults disk ≤ D.faults result.1 }

    // Of a file that is told is kept what it stood for, with further batches behind it, whatever
    // the source tells; where the store was not opened, a read and a stop give the same bytes, or
    // what stands for the same batches, and what is said of the file is so.
    ensures kept { ForSome (D.content disk) (λ file. KeepsAs result.0
        ((bs : List Batch) × StandsFor file bs × HasBatches (D.images result.1) bs)
        (λ fault. IsKept D.content D.moment D.images D.images_since file disk result.1
        × Refuses fault (meaning file))) }
    ensures told { is_some (D.content result.1) ≡ is_some (D.content disk) }
{
    match Node::start(alloc, disk) {
        Ok(node) => follow_lines(alloc, node, source, sink),
        Err((fault, disk)) => (Err(FollowStop::Unopened(fault)), disk),
    }
}
