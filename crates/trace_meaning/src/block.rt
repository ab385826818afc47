//! The values of a formula at the letters of a block, by those of its operands.
ghost use Rattle.std.specs.Prelude.{◌≡◌, IfOk, length};
ghost use Rattle.trace_meaning.specs.Block as spec;
ghost use Rattle.trace_meaning.specs.State.{state, path_state};

use crate::column::{bits, change, combine, constant, copy};
use crate::leads::Leads;
use crate::node::{Node, Track};
use crate::operator::{Binary, Unary};
use crate::star::take_turns;
use bes_io::Memory;
use std::alloc::Global;

/// The formula's values at the letters, which are those before the ones judged so far.
#[cycle(block)]
pub fn block(alloc: Global, node: &mut Node, letters: &[u64]) -> Result<Vec<bool>, Memory>
    ensures values { IfOk result (λ made. made.items ≡ spec.values letters.now (state node.old)) }
    ensures moved { IfOk result (λ _. state node.new ≡ spec.moved letters.now (state node.old)) }
    ensures whole { IfOk result (λ made. length made.items ≡ length letters.now) }
{
    match node {
        Node::Fixed(b) => constant(alloc, *b, letters.len()),
        Node::Atom(bit) => bits(alloc, letters, *bit),
        Node::Unary(op, f, later) => {
            let mut x = block(alloc, f, letters)?;
            *later = change(*op, &mut x, *later);
            Ok(x)
        }
        Node::Binary(op, f, g, later) => {
            let mut x = block(alloc, f, letters)?;
            let y = block(alloc, g, letters)?;
            *later = combine(*op, &mut x, &y, *later);
            Ok(x)
        }
        Node::Diamond(p, f, later) => {
            let mut x = block(alloc, f, letters)?;
            let mut next = copy(&x)?;
            *later = change(Unary::Next, &mut next, *later);
            let leads = leads_from(alloc, p, letters, next)?;
            leads.through(&mut x);
            Ok(x)
        }
    }
}

/// Where the path leads from the letters, `later` saying of each whether the next position is good.
#[cycle(block)]
fn leads_from(
    alloc: Global,
    track: &mut Track,
    letters: &[u64],
    later: Vec<bool>,
) -> Result<Leads, Memory>
    requires { length later.items ≡ length letters.now }
    ensures further { IfOk result (λ made.
        made.further.items ≡ spec.further_column letters.now later.items (path_state track.old)) }
    ensures stays { IfOk result (λ made.
        made.stays.items ≡ spec.stays letters.now (path_state track.old)) }
    ensures moved { IfOk result (λ _.
        path_state track.new ≡ spec.path_moved letters.now later.items (path_state track.old)) }
    ensures whole { IfOk result (λ made. length made.further.items ≡ length letters.now) }
{
    match track {
        Track::Step(f, _) => {
            let mut further = block(alloc, f, letters)?;
            combine(Binary::And, &mut further, &later, false);
            let stays = constant(alloc, false, letters.len())?;
            Ok(Leads { further, stays })
        }
        Track::Test(f, _) => {
            let stays = block(alloc, f, letters)?;
            let further = constant(alloc, false, letters.len())?;
            Ok(Leads { further, stays })
        }
        Track::Choice(p, q) => {
            let x = leads_from(alloc, p, letters, copy(&later)?)?;
            let y = leads_from(alloc, q, letters, later)?;
            Ok(x.or(y))
        }
        Track::Seq(p, q, next) => {
            let y = leads_from(alloc, q, letters, copy(&later)?)?;
            let then = y.rest(next, &later)?;
            let x = leads_from(alloc, p, letters, then)?;
            Ok(x.and_then(y))
        }
        Track::Star(p, next) => {
            mark(alloc, p, letters)?;
            let mut further = later;
            *next = take_turns(p, *next, &mut further);
            let stays = constant(alloc, true, letters.len())?;
            Ok(Leads { further, stays })
        }
    }
}

/// Finds the values of the path's tests and steps at the letters.
#[cycle(block)]
fn mark(alloc: Global, track: &mut Track, letters: &[u64]) -> Result<(), Memory>
    ensures { IfOk result (λ _.
        path_state track.new ≡ spec.marked letters.now (path_state track.old)) }
{
    match track {
        Track::Step(f, values) => {
            *values = block(alloc, f, letters)?;
            Ok(())
        }
        Track::Test(f, values) => {
            *values = block(alloc, f, letters)?;
            Ok(())
        }
        Track::Choice(p, q) => {
            mark(alloc, p, letters)?;
            mark(alloc, q, letters)
        }
        Track::Seq(p, q, _) => {
            mark(alloc, p, letters)?;
            mark(alloc, q, letters)
        }
        Track::Star(p, _) => mark(alloc, p, letters),
    }
}
