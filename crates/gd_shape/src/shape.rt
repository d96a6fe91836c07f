//! A page that is printed in slices.
ghost use Rattle.std.specs.Prelude.{◌≡◌, ◌+◌, ◌-◌, ◌*◌, ◌^◌, ◌<◌, ◌≤◌, ℕ, List, Ok, Result, min};
ghost use Rattle.std.specs.Prelude.{map, length, false, IfOk, IfErr, IfSome, IsNone, IsOk, IsTrue, OnOk};
ghost use Rattle.gd_base.specs.Counts.{Rose};
ghost use Rattle.gd_prim.specs.History.{prims_of};
ghost use Rattle.gd_prim.specs.declared.Primitive.{Primitive};
ghost use Rattle.gd_tree.specs.Json as tree;
ghost use Rattle.gd_defs.specs.Lines.{count_json};
ghost use Rattle.gd_defs.specs.Reply.{Path};
ghost use Rattle.gd_defs.specs.Rows.{Row};
ghost use Rattle.gd_frozen.specs.Meaning.{walk_of};
ghost use Rattle.gd_match_laws.specs.Walks.{rows_listed};
ghost use Rattle.gd_order_laws.specs.Window.{In};
ghost use Rattle.gd_plan.specs.Asked.{asked_view};
ghost use Rattle.gd_runs.specs.Shape.{page_shape};
ghost use Rattle.gd_trees.specs.View.{view as tree_view};
ghost use Rattle.gd_left_laws.specs.PassedOn.{printing_most};
ghost use Rattle.gd_shape.specs.Knowing.{known_at, unknown_of, IsKnownOf};
ghost use Rattle.gd_shape.specs.Outcome.{seen, text_of, Lacks, LacksOf};
ghost use Rattle.gd_shape.specs.declared.shape.Shape.{Shape};
ghost use Rattle.gd_shape.specs.declared.shape.ShapeFault.TheVariants.{Memory as no_memory};
ghost use Rattle.gd_shape.specs.Shaping.{asked_of, trees_in, walks_in, walks_told, page_of};
ghost use Rattle.gd_shape.specs.Shaping.{body_print, body_told, body_list, body_places, AreCounted};
ghost use Rattle.gd_shape.specs.Shaping.{IsOf, IsSamePage, IsWanted};
ghost use Rattle.gd_shape.specs.Shaping.{steps_due, shape_due, body_due, listed_of};
ghost use Rattle.gd_shape.specs.Shaping.{IsBodyOf, IsDue, IsNextDue};
ghost use Rattle.gd_shape.specs.Shaping.{IsNext, Tells, Refuses, is_unfinished};

use crate::gather::objects_printed;
use crate::ids::ids_among;
use crate::known::Known;
use crate::page::page_text;
use crate::sight::{Lack, Sight};
use crate::walks::{walk_up, walks_so_far};
use gd_base::id::Id;
use gd_base::memory::Memory;
use gd_base::steps::Steps;
use gd_frozen::frozen::Walk;
use gd_json::text::json_text;
use gd_json::value::{Json, JsonText};
use gd_plan::asked::Asked;
use gd_trees::View;
use gd_trees::tree::{Tree, Trees};
use std::alloc::Global;
use thiserror::Error;

/// The greatest number of places of a page.
const PAGE_PLACES: u64 = 262_144;

/// What a page prints from.
#[derive(Drop)]
pub enum PageBody {
    /// The trees of its rows, in their order.
    Trees(Trees),
    /// How many rows there are.
    Count(u32),
}

/// What a slice of printing comes to.
#[derive(Drop)]
pub enum ShapeTurn {
    /// The compact text of what the root prints.
    Reply(Vec<u8>),
    /// The budget was reached.
    Unfinished,
}

/// Why nothing is printed.
#[derive(Debug, Drop, Error)]
pub enum ShapeFault {
    /// Two answers were found where one is asked, at the member to which these names lead.
    #[error("two answers where one is asked")]
    NotUnique { path: Vec<JsonText> },
    /// An allocation was refused.
    #[error("out of memory")]
    Memory,
}

impl From<Memory> for ShapeFault {
    ghost from_gives = { λ _ fault. fault ≡ no_memory };

    fn from(_refused: Memory) -> ShapeFault {
        ShapeFault::Memory
    }
}

/// A page that is being printed: what is asked, the trees of its rows, the walks that spell the
/// first of its ids, and the walks that tell the ids that were found so far.
#[derive(Drop)]
pub struct Shape {
    asked: Asked,
    trees: Vec<Tree>,
    /// A count is printed, and no trees.
    count: Option<u32>,
    /// The k-th id that is printed is spelt by the k-th of these. The ids behind them are found.
    walks: Vec<Walk>,
    ids: Known,
    /// Places of the trees for which a step was counted.
    printed: u32,
    /// Places of the trees for which no step was counted yet.
    places: u64,
    /// Objects whose ids are printed, in the order in which they are.
    objects: Vec<Id>,
    /// The place among these of the next one whose id is to be found.
    next: usize,
    /// How many of these may be told by walks: those that are printed, none before they are gathered.
    most: usize,
    /// The objects were gathered.
    gathered: bool,
    /// A fault was told: nothing is printed any more.
    stopped: bool,
}

/// What a page lacks before it is printed.
enum Wanted {
    /// A step for a place of the trees.
    Place,
    /// The id of an object.
    IdOf(Id),
}

/// What is next while a page is printed.
enum Next {
    /// Something is to be looked at first.
    Look(Wanted),
    /// The text of what the root prints, or the names that lead to two answers where one is asked.
    Printed(Result<Vec<u8>, Vec<JsonText>>),
}

/// What is next where something is lacking.
fn lacking(lack: Lack) -> Result<Next, Memory>
    ensures next { (expected : Result tree.Json Path) (s : Shape) → Lacks s.ids lack
        → IfOk result (λ next. IsNext expected s next) }
    ensures due { (prims : List Primitive) (s : Shape) → LacksOf (listed_of prims s) lack
        → IfOk result (λ next. IsNextDue prims s next) }
{
    match lack {
        Lack::IdOf(object) => Ok(Next::Look(Wanted::IdOf(object))),
        Lack::Memory => Err(Memory),
    }
}

/// The next of these objects, from a place on, whose id is not known; those before it are passed
/// over.
#[tactic(auto, using(crate::proofs::Listed::is_in))]
fn unknown(objects: &[Id], next: &mut usize, ids: &Known) -> Option<Id>
    ensures unknown { IfSome result (λ object. IsNone (known_at ids.now object)) }
    ensures listed { IfSome result (λ object. In object objects.now) }
{
    while *next < objects.len() {
        let object = objects[*next];
        if ids.at(object).is_none() {
            return Some(object);
        }
        *next += 1;
    }
    None
}

/// Finds the id of an object that is not known: at most 785 steps.
#[tactic(auto, using(crate::proofs::Knowing::some_unknown, crate::proofs::WalkUp::walk_up_tells))]
fn find_id<L>(
    alloc: Global,
    ids: &mut Known,
    view: &View<'_>,
    object: Id,
    steps: &mut Steps<L>,
) -> Result<(), Memory>
    requires { IsNone (known_at ids.old object) }
    ensures known { IsKnownOf (prims_of view.now) ids.old → IsKnownOf (prims_of view.now) ids.new }
    ensures due { OnOk result ((os : List ℕ) → In object os
        → unknown_of ids.new os + 1 ≤ unknown_of ids.old os) }
    ensures some_due { (os : List ℕ) → In object os → 1 ≤ unknown_of ids.old os }
    ensures work { steps.new ≤ steps.old + 785 }
    ensures later { steps.old ≤ steps.new }
    ensures counted { Rose steps.old steps.new }
{
    steps.tick();
    let walk = walk_up(alloc, view, object, steps)?;
    ids.learn(object, walk)
}

/// What is left of a budget after so many steps, of which one at least counts.
fn left_of(budget: u64, before: u64, after: u64) -> u64
    requires some { 0 < budget }
    requires later { before ≤ after }
    ensures less { result < budget }
    ensures spent { 0 < result → after + result ≤ before + budget }
    ensures counted { min (before + 1) (2 ^ 64 - 1) ≤ after
        → min (before + (budget - result)) (2 ^ 64 - 1) ≤ after }
{
    let spent = (after - before).max(1);
    budget.saturating_sub(spent)
}

/// A shape of trees or of a count of which so many places were counted and so many are left, with
/// the walks of the first ids. No object was gathered yet.
fn begun(
    alloc: Global,
    asked: Asked,
    trees: Vec<Tree>,
    count: Option<u32>,
    walks: Vec<Walk>,
    printed: u32,
    places: u64,
) -> Shape
    ensures asked { asked_of result ≡ asked_view asked }
    ensures trees { trees_in result ≡ map tree_view trees.items }
    ensures count { result.count ≡ count }
    ensures walks { walks_in result ≡ map walk_of walks.items }
    ensures printed { result.printed ≡ printed }
    ensures of { AreCounted (map tree_view trees.items) printed places
        → (prims : List Primitive) → IsOf prims result }
    ensures due { (prims : List Primitive) → shape_due prims result
        ≤ places + 785 * length (rows_listed prims (asked_view asked).members
        (map tree_view trees.items)) }
{
    let ids = Known::new(alloc);
    Shape {
        asked,
        trees,
        count,
        next: walks.len(),
        walks,
        ids,
        printed,
        places,
        objects: Vec::new(alloc),
        most: 0,
        gathered: false,
        stopped: false,
    }
}

impl Shape {
    /// The page of a query with this body, of which nothing is looked at yet. `Memory`: an
    /// allocation was refused.
    #[tactic(auto, using(crate::proofs::Due::due_paid))]
    pub fn start(alloc: Global, asked: Asked, body: PageBody) -> Result<Shape, Memory>
        ensures page { IfOk result (λ shape. (prims : List Primitive)
            → page_of prims shape ≡ body_print prims (asked_view asked) body) }
        ensures of { IfOk result (λ shape. (prims : List Primitive) → IsOf prims shape) }
        ensures due { IfOk result (λ shape. (prims : List Primitive)
            → shape_due prims shape ≤ body_due prims (asked_view asked) body) }

        // The work of a query pays for the page of rows whose trees these are.
        ensures paid { IfOk result (λ shape. (prims : List Primitive) (rows : List Row)
            → IsBodyOf prims (asked_view asked) rows body
            → shape_due prims shape ≤ printing_most prims (asked_view asked) rows) }
    {
        Shape::start_at(alloc, asked, body, 0, Vec::new(alloc))
    }

    /// The page of a query with this body, of whose trees so many places were counted, and whose
    /// first ids are spelt by these walks: the k-th one that is printed by the k-th walk. The ids
    /// behind them are still to be found. `Memory`: an allocation was refused.
    #[tactic(auto, using(crate::proofs::InTrees::list_seen, crate::proofs::Due::trees_due, crate::proofs::Due::trees_counted))]
    pub fn start_at(
        alloc: Global,
        asked: Asked,
        body: PageBody,
        printed: u32,
        walks: Vec<Walk>,
    ) -> Result<Shape, Memory>
        // No more places were counted than the trees hold.
        requires printed { printed ≤ body_places body }
        ensures page { IfOk result (λ shape. (prims : List Primitive)
            → page_of prims shape
            ≡ body_told prims (asked_view asked) body (map walk_of walks.items)) }
        ensures of { IfOk result (λ shape. (prims : List Primitive) → IsOf prims shape) }
        ensures due { IfOk result (λ shape. (prims : List Primitive)
            → shape_due prims shape ≤ body_due prims (asked_view asked) body) }

        // No step is due for the places that were counted.
        ensures counted { IfOk result (λ shape. (prims : List Primitive)
            → shape_due prims shape + printed ≤ body_due prims (asked_view asked) body) }
        ensures printed { IfOk result (λ shape. shape.printed ≡ printed) }
        ensures walks { IfOk result (λ shape. walks_in shape ≡ map walk_of walks.items) }
        ensures asked { IfOk result (λ shape. asked_of shape ≡ asked_view asked) }
        ensures trees { IfOk result (λ shape. trees_in shape ≡ body_list body) }
    {
        match body {
            PageBody::Trees(trees) => {
                // A page of more places is refused before it is printed.
                let most = trees.count().min(PAGE_PLACES);
                let places = most.saturating_sub(u64::from(printed));
                Ok(begun(alloc, asked, trees.items, None, walks, printed, places))
            }
            PageBody::Count(count) => {
                let no_trees = Vec::new(alloc);
                Ok(begun(alloc, asked, no_trees, Some(count), walks, printed, 0))
            }
        }
    }

    /// How many places of the trees were counted so far: none of a count, and never more than the
    /// trees hold.
    pub fn printed(&self) -> u32
        ensures { result ≡ self.now.printed }
    {
        self.printed
    }

    /// The trees of the rows whose page is printed, in their order: none of a count.
    pub fn trees(&self) -> &[Tree]
        ensures { map tree_view result.now ≡ trees_in self.now }
    {
        self.trees.as_slice()
    }

    /// The count that is printed, if no trees are.
    pub fn count(&self) -> Option<u32>
        ensures { result ≡ self.now.count }
    {
        self.count
    }

    /// Walks of the first ids that the page prints, in the order in which it prints them, with
    /// which it prints the same: those with which it was started, and behind them those of the ids
    /// that were found since, up to the first that was not. Where one answer alone is printed they
    /// are no more than that one prints. `Memory`: an allocation was refused.
    pub fn walks(&self, alloc: Global) -> Result<Vec<Walk>, Memory>
        ensures { IfOk result (λ walks. map walk_of walks.items ≡ walks_told self.now) }
    {
        walks_so_far(
            alloc,
            self.walks.as_slice(),
            self.objects.as_slice(),
            self.most,
            &self.ids,
        )
    }

    /// The objects whose ids are printed are gathered, if that was not done yet.
    fn gather(&mut self, alloc: Global, view: &View<'_>) -> Result<(), Memory>
        requires { IsOf (prims_of view.now) self.old }
        ensures page { IsSamePage self.old self.new }
        ensures still { IsOf (prims_of view.now) self.new }
        ensures due { (prims : List Primitive) → steps_due prims self.new ≡ steps_due prims self.old }
    {
        if !self.gathered {
            let sight = Sight::new(view);
            let trees = self.trees.as_slice();
            let objects = objects_printed(alloc, &sight, &self.asked, trees)?;
            self.most = ids_among(alloc, view, &self.asked, trees, objects.as_slice())?;
            self.objects = objects;
            self.gathered = true;
        }
        Ok(())
    }

    /// What the page prints, or the object whose id is not known.
    fn attempt(&self, alloc: Global, view: &View<'_>) -> Result<Next, Memory>
        requires { IsOf (prims_of view.now) self.now }
        ensures next { IfOk result (λ next. IsNext
            (page_shape (prims_of view.now) (asked_of self.now) (trees_in self.now)
            (walks_in self.now)) self.now
            next) }
        ensures wanted { IfOk result (λ next. IsNextDue (prims_of view.now) self.now next) }
    {
        let sight = Sight::new(view);
        let walks = self.walks.as_slice();
        match page_text(
            alloc,
            &sight,
            &self.ids,
            walks,
            &self.asked,
            self.trees.as_slice(),
        ) {
            Ok(outcome) => Ok(Next::Printed(outcome)),
            Err(lack) => lacking(lack),
        }
    }

    /// What is next: a place, an id that is not known, or the page, which is printed.
    fn next(&mut self, alloc: Global, view: &View<'_>) -> Result<Next, Memory>
        requires { IsOf (prims_of view.now) self.old }
        ensures next { IfOk result (λ next. IsNext
            (page_shape (prims_of view.now) (asked_of self.old) (trees_in self.old)
            (walks_in self.old)) self.new
            next) }
        ensures wanted { IfOk result (λ next. IsNextDue (prims_of view.now) self.new next) }
        ensures page { IsSamePage self.old self.new }
        ensures still { IsOf (prims_of view.now) self.new }
        ensures due { (prims : List Primitive) → steps_due prims self.new ≡ steps_due prims self.old }
    {
        if self.places > 0 {
            return Ok(Next::Look(Wanted::Place));
        }
        self.gather(alloc, view)?;
        match unknown(self.objects.as_slice(), &mut self.next, &self.ids) {
            Some(object) => Ok(Next::Look(Wanted::IdOf(object))),
            None => self.attempt(alloc, view),
        }
    }

    /// Counts a place, or finds an id: at most 785 steps.
    fn look<L>(
        &mut self,
        alloc: Global,
        view: &View<'_>,
        wanted: Wanted,
        steps: &mut Steps<L>,
    ) -> Result<(), Memory>
        requires wanted { IsWanted self.old wanted }
        requires due { IsDue (prims_of view.now) self.old wanted }
        ensures page { IsSamePage self.old self.new }
        ensures still { IsOf (prims_of view.now) self.old → IsOf (prims_of view.now) self.new }
        ensures within { steps.new ≤ steps.old + steps_due (prims_of view.now) self.old }
        ensures due { OnOk result (steps.new + steps_due (prims_of view.now) self.new
            ≤ steps.old + steps_due (prims_of view.now) self.old) }
        ensures work { steps.new ≤ steps.old + 785 }
        ensures later { steps.old ≤ steps.new }
        ensures counted { Rose steps.old steps.new }
    {
        match wanted {
            Wanted::Place => {
                self.places -= 1;
                self.printed = self.printed.saturating_add(1);
                steps.tick();
                Ok(())
            }
            Wanted::IdOf(object) => find_id(alloc, &mut self.ids, view, object, steps),
        }
    }

    /// Goes on with the trees over a view.
    fn print_trees<L>(
        &mut self,
        alloc: Global,
        view: &View<'_>,
        budget: u64,
        steps: &mut Steps<L>,
    ) -> Result<ShapeTurn, ShapeFault>
        requires budget { 0 < budget }
        requires of { IsOf (prims_of view.now) self.old }
        ensures reply { IfOk result (λ turn. Tells
            (page_shape (prims_of view.now) (asked_of self.old) (trees_in self.old)
            (walks_in self.old)) turn) }
        ensures refused { IfErr result (λ fault. Refuses
            (page_shape (prims_of view.now) (asked_of self.old) (trees_in self.old)
            (walks_in self.old)) fault) }
        ensures unfinished { IfOk result
            (λ turn. IsTrue (is_unfinished turn) → min (steps.old + budget) (2 ^ 64 - 1)
            ≤ steps.new) }
        ensures page { IsSamePage self.old self.new }
        ensures still { IsOf (prims_of view.now) self.new }
        ensures within { steps.new ≤ steps.old + steps_due (prims_of view.now) self.old }
        ensures due { IsOk result → steps.new + steps_due (prims_of view.now) self.new
            ≤ steps.old + steps_due (prims_of view.now) self.old }
        ensures work { steps.new ≤ steps.old + budget + 1024 }
        ensures later { steps.old ≤ steps.new }
    {
        let mut left = budget;
        while left > 0 {
            match self.next(alloc, view)? {
                Next::Printed(outcome) => return told(outcome),
                Next::Look(wanted) => {
                    let before = steps.taken();
                    self.look(alloc, view, wanted, steps)?;
                    left = left_of(left, before, steps.taken());
                }
            }
        }
        Ok(ShapeTurn::Unfinished)
    }

    /// Goes on with the trees, and stops for good at a fault.
    fn go_on<L>(
        &mut self,
        alloc: Global,
        view: &View<'_>,
        budget: u64,
        steps: &mut Steps<L>,
    ) -> Result<ShapeTurn, ShapeFault>
        requires budget { 0 < budget }
        requires of { IsOf (prims_of view.now) self.old }
        requires going { self.old.stopped ≡ false }
        ensures reply { IfOk result (λ turn. Tells
            (page_shape (prims_of view.now) (asked_of self.old) (trees_in self.old)
            (walks_in self.old)) turn) }
        ensures refused { IfErr result (λ fault. Refuses
            (page_shape (prims_of view.now) (asked_of self.old) (trees_in self.old)
            (walks_in self.old)) fault) }
        ensures unfinished { IfOk result
            (λ turn. IsTrue (is_unfinished turn) → min (steps.old + budget) (2 ^ 64 - 1)
            ≤ steps.new) }
        ensures page { IsSamePage self.old self.new }
        ensures still { IsOf (prims_of view.now) self.new }
        ensures due { steps.new + shape_due (prims_of view.now) self.new
            ≤ steps.old + shape_due (prims_of view.now) self.old }
        ensures work { steps.new ≤ steps.old + budget + 1024 }
        ensures later { steps.old ≤ steps.new }
    {
        let turn = self.print_trees(alloc, view, budget, steps);
        self.stopped = turn.is_err();
        turn
    }

    /// Goes on over a view, until the budget of steps is reached or the page is printed: what the
    /// root of the query prints from the body, by the list of primitives below the view. It takes
    /// at most 1,024 steps more than the budget, and no more than those by which it lowers the
    /// number that is due (`shape_due`), which counts a step for each place of the trees and 785 for
    /// each id that the page prints: so after finitely many calls the page is printed.
    /// `NotUnique`: two answers were found where one is asked; the path is the first such one.
    /// `Memory`: an allocation was refused, or a call before it came to a fault. After a reply
    /// nothing more is to be asked.
    pub fn resume<L>(
        &mut self,
        alloc: Global,
        view: &View<'_>,
        budget: u64,
        steps: &mut Steps<L>,
    ) -> Result<ShapeTurn, ShapeFault>
        requires budget { 0 < budget }

        // The view stands for the list of which the shape knows something.
        requires of { IsOf (prims_of view.now) self.old }
        ensures reply { IfOk result (λ turn. Tells (page_of (prims_of view.now) self.old) turn) }
        ensures refused { IfErr result (λ fault. Refuses (page_of (prims_of view.now) self.old)
            fault) }
        ensures unfinished { IfOk result
            (λ turn. IsTrue (is_unfinished turn) → min (steps.old + budget) (2 ^ 64 - 1)
            ≤ steps.new) }
        ensures page { IsSamePage self.old self.new }
        ensures still { IsOf (prims_of view.now) self.new }

        // Each call lowers the steps that are due, at most, by those that it takes, whatever it comes
        // to: those for the places of the trees and for the ids that the page prints.
        ensures due { steps.new + shape_due (prims_of view.now) self.new
            ≤ steps.old + shape_due (prims_of view.now) self.old }
        ensures work { steps.new ≤ steps.old + budget + 1024 }
        ensures later { steps.old ≤ steps.new }
    {
        if self.stopped {
            return Err(ShapeFault::Memory);
        }
        match self.count {
            Some(count) => Ok(ShapeTurn::Reply(count_text(alloc, count)?)),
            None => self.go_on(alloc, view, budget, steps),
        }
    }
}

/// A count as it prints.
fn count_text(alloc: Global, count: u32) -> Result<Vec<u8>, Memory>
    ensures { IfOk result (λ text. text.items ≡ tree.compact (count_json count)) }
{
    json_text(alloc, &Json::Int(i64::from(count)))
}

/// The turn that printing comes to.
#[tactic(auto, using(crate::proofs::Written::path_told))]
fn told(outcome: Result<Vec<u8>, Vec<JsonText>>) -> Result<ShapeTurn, ShapeFault>
    ensures reply { (page : Result tree.Json Path) → seen (λ text. text.items) outcome
        ≡ text_of page → IfOk result (λ turn. Tells page turn) }
    ensures refused { (page : Result tree.Json Path) → seen (λ text. text.items) outcome
        ≡ text_of page → IfErr result (λ fault. Refuses page fault) }
    ensures done { IfOk result (λ turn. is_unfinished turn ≡ false) }
{
    match outcome {
        Ok(text) => Ok(ShapeTurn::Reply(text)),
        Err(path) => Err(ShapeFault::NotUnique { path }),
    }
}
