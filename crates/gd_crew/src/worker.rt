//! A worker's share of a round.
ghost use Rattle.std.specs.Prelude.{◌≡◌, ◌<◌, ◌≤◌, All, false};
ghost use Rattle.gd_crew.specs.Round.{begun};
ghost use Rattle.gd_crew.specs.Seated.{Begins, IsStarted, AllGo, AllRun, AreOver};

use crate::seated::Seated;
use crate::writers::{Round, Writers};
use gd_base::steps::Steps;
use gd_disk::disk::Disk;
use gd_outside::clock::Clock;
use gd_outside::gate::Gate;
use std::alloc::Global;
use std::sync::Wait;

/// One turn of each session. False where nothing is left to do.
fn pass<L: Round, D: Disk, C: Clock, G: Gate, R: Wait>(
    seated: &mut [Seated<'_>],
    rt: &R,
    alloc: Global,
    number: u32,
    budget: u64,
    writers: &Writers<L, D, C>,
    gate: &G,
    steps: &mut Steps<L>,
) -> bool
    requires budget { (0 < budget) × (budget ≤ 1_000_000) }
    requires started { All (IsStarted (begun L.named) L.named.table) seated.old }
    ensures started { All (IsStarted (begun L.named) L.named.table) seated.new }
    ensures go { AllGo (begun L.named) L.named.table seated.old seated.new }
    ensures over { result ≡ false → AreOver seated.new }
{
    let mut going = false;
    for k in 0..seated.len() {
        let one = &mut seated[k];
        if one.turn(rt, alloc, number, budget, writers, gate, steps) {
            going = true;
        }
    }
    going
}

/// Turns of the sessions until nothing is left to do.
fn run_all<L: Round, D: Disk, C: Clock, G: Gate, R: Wait>(
    seated: &mut [Seated<'_>],
    rt: &R,
    alloc: Global,
    number: u32,
    budget: u64,
    writers: &Writers<L, D, C>,
    gate: &G,
)
    requires budget { (0 < budget) × (budget ≤ 1_000_000) }
    requires begins { All (Begins (begun L.named) L.named.table) seated.old }
    ensures { AllRun (begun L.named) L.named.table seated.old seated.new }
{
    let mut steps: Steps<L> = Steps::new();
    for _ in rt.forever() {
        if !pass(seated, rt, alloc, number, budget, writers, gate, &mut steps) {
            return;
        }
    }
    unreachable!()
}

/// The sessions of one worker in a round, with the budget of a slice.
#[derive(Drop)]
pub struct Worker<'a> {
    pub number: u32,
    pub budget: u64,
    pub seated: Vec<Seated<'a>>,
}

impl<'a> Worker<'a> {
    /// Runs the jobs of each session in their order, one slice or one write of each session in
    /// turn, until each has run them all or has stopped. It waits for the lock of writes.
    pub fn run<L: Round, D: Disk, C: Clock, G: Gate, R: Wait>(
        &mut self,
        rt: &R,
        alloc: Global,
        writers: &Writers<L, D, C>,
        gate: &G,
    )
        requires budget { (0 < self.old.budget) × (self.old.budget ≤ 1_000_000) }
        requires begins { All (Begins (begun L.named) L.named.table) self.old.seated.items }
        ensures same { (self.new.number ≡ self.old.number) × (self.new.budget ≡ self.old.budget) }
        ensures run { AllRun (begun L.named) L.named.table self.old.seated.items
            self.new.seated.items }
    {
        let number = self.number;
        let budget = self.budget;
        run_all(
            self.seated.as_mut_slice(),
            rt,
            alloc,
            number,
            budget,
            writers,
            gate,
        );
    }
}
