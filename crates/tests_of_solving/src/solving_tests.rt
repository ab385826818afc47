//! What is found at the locations of small specifications' arenas.
ghost use Rattle.std.specs.Prelude.{◌≡◌, ◌<◌, ℕ, false, length, IfOk};
ghost use Rattle.diagrams.specs.Live.{IsLive, Keeps};
ghost use Rattle.attractor.specs.Graph.{number_at};
ghost use Rattle.layers.specs.Ranked.{AreRanks};
ghost use Rattle.arena.specs.Left.{locations_of, FitsArena};
ghost use Rattle.adversarial.specs.Answered.{AreAnswerDiagrams};
ghost use Rattle.tests_of_solving.specs.Ready.{IsReady};

use crate::arenas::{arena_of, props_of};
use crate::games::{Answer, CASES, Case, Found, TWO_LOCATIONS};
use adversarial::{answers, solve};
use arena::Arena;
use bes_io::Memory;
use cooperative::{Loss, Losses, distances, losses};
use diagrams::{Id, Store};
use layers::{Distances, EnvTable, Ranks};
use std::alloc::Global;
use std::test::Fail;

fn rank_of(found: Found) -> Option<u32> {
    match found {
        Found::Won { rank, .. } => Some(rank),
        _ => None,
    }
}

fn distance_of(found: Found) -> Option<u32> {
    match found {
        Found::Won { distance, .. } => Some(distance),
        Found::Hoped { distance, .. } => Some(distance),
        _ => None,
    }
}

fn answers_of(found: Found) -> Option<&'static [Answer]> {
    match found {
        Found::Won { .. } => None,
        Found::Hoped { answers, .. } => Some(answers),
        Found::Held { answers } => Some(answers),
        Found::Lost { answers, .. } => Some(answers),
    }
}

fn is_lost_so(found: Found, loss: Option<Loss>) -> bool {
    match (found, loss) {
        (Found::Held { .. }, Some(Loss::Held)) => true,
        (Found::Lost { rounds, .. }, Some(Loss::In(n))) => rounds == n,
        (Found::Won { .. }, None) => true,
        (Found::Hoped { .. }, None) => true,
        _ => false,
    }
}

// Whether there are these ranks.
fn are_ranks(ranks: &Ranks, found: &[Found]) -> bool {
    if ranks.len() != found.len() {
        return false;
    }
    for (at, wanted) in found.iter().enumerate() {
        if *ranks.item(at) != rank_of(*wanted) {
            return false;
        }
    }
    true
}

fn are_distances(distances: &Distances, found: &[Found]) -> bool {
    if distances.len() != found.len() {
        return false;
    }
    for (at, wanted) in found.iter().enumerate() {
        if *distances.item(at) != distance_of(*wanted) {
            return false;
        }
    }
    true
}

fn are_losses(losses: &Losses, found: &[Found]) -> bool {
    if losses.len() != found.len() {
        return false;
    }
    for (at, wanted) in found.iter().enumerate() {
        if !is_lost_so(*wanted, *losses.item(at)) {
            return false;
        }
    }
    true
}

// Whether a diagram gives these answers. A number that is no letter fails the test.
fn gives(store: &Store, table: Id, answers: &[Answer]) -> bool
    requires live { IsLive store.now table }
{
    if store.props() > 4 {
        return false;
    }
    for (letter, answer) in answers {
        if *letter >= 1 << store.props() || store.value(table, *letter) != *answer {
            return false;
        }
    }
    true
}

// Whether the table has these answers.
fn are_answers(store: &Store, arena: &Arena, table: &EnvTable, found: &[Found]) -> bool
    requires { AreAnswerDiagrams store.now arena.now.partition table.now }
{
    if table.len() != found.len() {
        return false;
    }
    for (at, wanted) in found.iter().enumerate() {
        let agrees = match (table.item(at), answers_of(*wanted)) {
            (None, None) => true,
            (Some(id), Some(answers)) => gives(store, *id, answers),
            _ => false,
        };
        if !agrees {
            return false;
        }
    }
    true
}

// Whether the ranks and the answers of a case are as they must.
fn is_solved(alloc: Global, case: &Case) -> Result<bool, Fail> {
    let mut store = Store::new(alloc, props_of(&case.game)?)?;
    let arena = arena_of(alloc, &mut store, &case.game)?;
    let ranks = solve(alloc, &mut store, &arena)?;
    let table = answers(alloc, &mut store, &arena, &ranks)?;
    Ok(are_ranks(&ranks, case.found) && are_answers(&store, &arena, &table, case.found))
}

#[test]
fn locations_have_their_ranks_and_answers(rt: HostRuntime) -> Result<(), Fail> {
    for case in &CASES {
        let solved = is_solved(rt.alloc(), case)?;
        assert!(rt; solved, "{}", case.name);
    }
    Ok(())
}

// The distances and the losses.
fn hopes(
    alloc: Global,
    store: &mut Store,
    arena: &Arena,
    ranks: &Ranks,
) -> Result<(Distances, Losses), Memory>
    requires ready { IsReady store.old arena.now }
    requires size { length ranks.now ≡ length arena.now.rows }
    requires ranks { AreRanks arena.now.partition arena.now.has_duty (locations_of store.old arena.now) (number_at ranks.now) }
    ensures keeps { Keeps store.old store.new }
    ensures fits { FitsArena store.new arena.now }
{
    let near = distances(alloc, store, arena, ranks)?;
    let lost = losses(alloc, store, arena, ranks, &near)?;
    Ok((near, lost))
}

// Whether the distances and the losses of a case are as they must.
fn is_hoped_for(alloc: Global, case: &Case) -> Result<bool, Fail> {
    let mut store = Store::new(alloc, props_of(&case.game)?)?;
    let arena = arena_of(alloc, &mut store, &case.game)?;
    let ranks = solve(alloc, &mut store, &arena)?;
    let (near, lost) = hopes(alloc, &mut store, &arena, &ranks)?;
    Ok(are_distances(&near, case.found) && are_losses(&lost, case.found))
}

#[test]
fn locations_have_their_distances_and_losses(rt: HostRuntime) -> Result<(), Fail> {
    for case in &CASES {
        let hoped = is_hoped_for(rt.alloc(), case)?;
        assert!(rt; hoped, "{}", case.name);
    }
    Ok(())
}

// One more than the distance of the location to which a round leads. A round that there isn't fails the test.
fn one_more(store: &Store, arena: &Arena, near: &Distances, at: u32, letter: u64) -> Option<u32>
    requires fits { FitsArena store.now arena.now }
{
    if at >= arena.size() || store.props() != 2 || letter >= 4 {
        return None;
    }
    let to = store.value(arena.row(at), letter) as usize;
    if to >= near.len() {
        return None;
    }
    match near.item(to) {
        Some(n) => n.checked_add(1),
        None => None,
    }
}

// Of the two rounds with the decision 0 at the first location, which can't be won.
fn idle_hopes(alloc: Global, case: &Case) -> Result<(Option<u32>, Option<u32>), Fail> {
    let mut store = Store::new(alloc, props_of(&case.game)?)?;
    let arena = arena_of(alloc, &mut store, &case.game)?;
    let ranks = solve(alloc, &mut store, &arena)?;
    let (near, _lost) = hopes(alloc, &mut store, &arena, &ranks)?;
    Ok((
        one_more(&store, &arena, &near, 0, 0),
        one_more(&store, &arena, &near, 0, 1),
    ))
}

#[test]
fn the_hope_of_a_decision_may_be_the_number_of_locations(rt: HostRuntime) -> Result<(), Fail> {
    let case = &TWO_LOCATIONS;
    assert_eq!(rt; case.found.len(), 2);
    assert_eq!(rt; idle_hopes(rt.alloc(), case)?, (Some(2), Some(2)));
    Ok(())
}
