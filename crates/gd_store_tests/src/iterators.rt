//! Iterators over the built-in list, called at these types, with one step a call where a budget
//! counts.
use gd_and::and::And;
use gd_base::id::Id;
use gd_base::memory::Memory;
use gd_base::steps::Steps;
use gd_iter_core::iter::Iter;
use gd_iter_core::turn::Turn;
use gd_leaf::leaf::Leaf;
use gd_or::or::Or;
use gd_or::without::Without;
use gd_prim::End;
use gd_store::store::Store;
use gd_store::view::View;
use std::alloc::Global;

/// The run that steps are counted for.
struct Run;

/// The sum of the places that the iterator gives within so many calls, each with a budget of one
/// step.
fn sum_of<'a, I: Iter<View<'a>>>(iter: &mut I, view: &View<'a>, calls: u32) -> u64 {
    let mut steps: Steps<Run> = Steps::new();
    let mut sum: u64 = 0;
    for _ in 0..calls {
        if let Turn::Found(id) = iter.next(view, 1, &mut steps) {
            sum = sum.saturating_add(u64::from(id.place()));
        }
    }
    sum
}

/// The links of type key to the root that are none of a list.
fn keys_of_the_root(alloc: Global) -> Result<Without<And<Leaf>, Leaf>, Memory> {
    let members = vec![in alloc;
        Leaf::linkage(End::Typ, Id(15)),
        Leaf::linkage(End::Right, Id(0)),
    ]?;
    let less = Leaf::fixed(alloc, &[Id(19), Id(19)])?;
    Ok(Without::new(And::new(members), less))
}

/// The links from either of two nodes.
fn links_of_two(alloc: Global) -> Result<Or<Leaf>, Memory> {
    let members = vec![in alloc;
        Leaf::linkage(End::Left, Id(1)),
        Leaf::linkage(End::Left, Id(2)),
    ]?;
    Or::new(alloc, members)
}

/// What both give, added.
fn sums_over(alloc: Global, store: &Store) -> u64 {
    let (Ok(mut keys), Ok(mut links)) = (keys_of_the_root(alloc), links_of_two(alloc)) else {
        return 0;
    };
    let view = store.view(0);
    sum_of(&mut keys, &view, 30).saturating_add(sum_of(&mut links, &view, 30))
}

/// The same, over the built-in list.
fn both_sums(alloc: Global) -> u64 {
    match Store::new(alloc) {
        Ok(store) => {
            let sum = sums_over(alloc, &store);
            drop(store);
            sum
        }
        Err(_) => 0,
    }
}

#[test]
fn iterators_give_their_places(rt: HostRuntime) {
    assert!(rt; both_sums(rt.alloc()) == 20 + (19 + 20 + 38 + 39 + 67));
}
