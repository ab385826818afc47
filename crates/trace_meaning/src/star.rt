//! A star, by turns over its path at one position.
ghost use Rattle.std.specs.Prelude.{◌≡◌, ◌&&◌, false, length};
ghost use Rattle.trace_meaning.specs.Star as spec;
ghost use Rattle.trace_meaning.specs.Column as column;
ghost use Rattle.trace_meaning.specs.State.{path_state};

use crate::node::{Lead, Track};

/// Takes the last of the values, or false if there is none.
#[inline(always)]
fn take_last(values: &mut Vec<bool>) -> bool
    ensures last { result ≡ column.last values.old.items }
    ensures left { values.new.items ≡ column.without_last values.old.items }
{
    match values.pop() {
        Some(x) => x,
        None => false,
    }
}

impl Lead {
    /// Whether the path leads to a good position, `good` being whether its own is one.
    fn through(self, good: bool) -> bool
        ensures { result ≡ spec.through self good }
    {
        self.further || self.stays && good
    }

    /// Where a choice of the two leads.
    fn or(self, other: Lead) -> Lead
        ensures { result ≡ spec.either self other }
    {
        Lead {
            further: self.further || other.further,
            stays: self.stays || other.stays,
        }
    }

    /// Where the one leads and then the other.
    fn and_then(self, other: Lead) -> Lead
        ensures { result ≡ spec.in_turn self other }
    {
        Lead {
            further: self.further || self.stays && other.further,
            stays: self.stays && other.stays,
        }
    }
}

#[inline(always)]
fn step(values: &mut Vec<bool>, later: bool) -> Lead
    ensures further { result.further ≡ (column.last values.old.items && later) }
    ensures stays { result.stays ≡ false }
    ensures left { values.new.items ≡ column.without_last values.old.items }
{
    let x = take_last(values);
    Lead {
        further: x & later,
        stays: false,
    }
}

#[inline(always)]
fn test(values: &mut Vec<bool>) -> Lead
    ensures further { result.further ≡ false }
    ensures stays { result.stays ≡ column.last values.old.items }
    ensures left { values.new.items ≡ column.without_last values.old.items }
{
    let x = take_last(values);
    Lead {
        further: false,
        stays: x,
    }
}

/// Where the path leads from the position before the one that was followed last, `later` being
/// whether that one is good. Steps and tests need no call.
#[cycle(follow)]
#[inline(always)]
fn follow(track: &mut Track, later: bool) -> Lead
    ensures lead { result ≡ spec.lead later (path_state track.old) }
    ensures followed { path_state track.new ≡ spec.followed later (path_state track.old) }
{
    match track {
        Track::Step(_, values) => step(values, later),
        Track::Test(_, values) => test(values),
        Track::Choice(_, _) => follow_parts(track, later),
        Track::Seq(_, _, _) => follow_parts(track, later),
        Track::Star(_, _) => follow_parts(track, later),
    }
}

#[cycle(follow)]
#[inline(never)]
fn follow_parts(track: &mut Track, later: bool) -> Lead
    ensures lead { result ≡ spec.lead later (path_state track.old) }
    ensures followed { path_state track.new ≡ spec.followed later (path_state track.old) }
{
    match track {
        Track::Step(_, values) => step(values, later),
        Track::Test(_, values) => test(values),
        Track::Choice(p, q) => {
            let x = follow(p, later);
            let y = follow(q, later);
            x.or(y)
        }
        Track::Seq(p, q, next) => {
            let x = follow(p, next.through(later));
            let y = follow(q, later);
            *next = y;
            x.and_then(y)
        }
        Track::Star(p, next) => {
            let x = follow(p, *next | later);
            *next = x.further;
            Lead {
                further: x.further,
                stays: true,
            }
        }
    }
}

/// Where turns of the path lead further from each position of a block. `further` says of each whether
/// the next one is good, and then whether turns lead further from it; `next` says so of the position
/// after the block.
pub fn take_turns(track: &mut Track, next: bool, further: &mut Vec<bool>) -> bool
    ensures further { further.new.items ≡ spec.turns_further next further.old.items (path_state track.old) }
    ensures first { result ≡
        spec.first_or next (spec.turns_further next further.old.items (path_state track.old)) }
    ensures followed { path_state track.new ≡
        spec.turns_followed next further.old.items (path_state track.old) }
    ensures whole { length further.new.items ≡ length further.old.items }
{
    let mut next = next;
    let mut i = further.len();
    while i > 0 {
        i -= 1;
        let good = next | further[i];
        let lead = follow(track, good);
        next = lead.further;
        further[i] = next;
    }
    next
}
