//! The least letter at which two diagrams differ.
ghost use Rattle.std.specs.Prelude.{◌≢◌, ◌<◌, ◌-◌, ◌^◌, ℕ};
ghost use Rattle.diagrams.specs.Live.{StandsAbove};
ghost use Rattle.distinguish.specs.Differences.{IsOverLetters, IsLeastDifference};

use diagrams::{Id, Store, cofactors, least_variable};

/// The least letter at which two diagrams differ.
pub(crate) fn least_difference(store: &Store, f: Id, g: Id) -> u64
    requires first { IsOverLetters store.now f }
    requires second { IsOverLetters store.now g }
    requires apart { f ≢ g }
    ensures least { IsLeastDifference store.now f g result }
    ensures below { (v : ℕ) → v < store.now.props
        → StandsAbove store.now v f → StandsAbove store.now v g
        → result < 2 ^ (store.now.props - 1 - v) }
{
    let f_top = store.look(f);
    let g_top = store.look(g);
    let Some(var) = least_variable(f_top, g_top) else {
        return 0;
    };
    let (f_lo, f_hi) = cofactors(f, f_top, var);
    let (g_lo, g_hi) = cofactors(g, g_top, var);
    if f_lo != g_lo {
        return least_difference(store, f_lo, g_lo);
    }
    // The first proposition has the greatest weight.
    (1 << (store.props() - 1 - var)) + least_difference(store, f_hi, g_hi)
}
