//! The least automaton of a formula.
ghost use Rattle.std.specs.Prelude.{◌≤◌, All, IfOk, IfErr};
ghost use Rattle.forms.specs.Tree.{tree};
ghost use Rattle.forms.specs.Proper.{IsProper};
ghost use Rattle.forms.specs.Equivalence.{HasClassCount};
ghost use Rattle.diagrams.specs.Live.{Keeps};
ghost use Rattle.automata.specs.Table.{size_of, moves_of};
ghost use Rattle.minimise.specs.Minimal.{IsLeastFor, IsOnlyFor};
ghost use Rattle.translate.specs.Exact.{accepted, admitted, IsLeastOf};
ghost use Rattle.translate.specs.Counting.{AreCounts, IfTooMany, IsFirstOver, whole_claim};

use crate::counts::Counts;
use crate::fault::TranslateFault;
use crate::operators;
use crate::parts::part;
use automata::Automaton;
use bes_io::Memory;
use diagrams::Store;
use forms::Form;
use std::alloc::Global;

/// A formula's automaton: it accepts the formula's traces, which are not empty, and the empty word only where that is
/// admitted and the formula holds on it.
#[derive(Drop)]
pub struct Translated {
    /// The class count of each part, the operands before what they make.
    pub counts: Counts,
    pub whole: Automaton,
}

/// The least automaton of a formula's traces, with the class count of each part (Nerode 1958). Where `empty` admits the
/// empty word, it is a trace too if the formula holds on it. Each part and the whole may have at most `limit` classes; any
/// limit is allowed, and 0 refuses part 1. Goes one level deeper for each level of the tree.
pub fn translate(
    alloc: Global,
    store: &mut Store,
    form: &Form,
    empty: bool,
    limit: u32,
) -> Result<Translated, TranslateFault>
    requires proper { IsProper store.old.props (tree form.now) }
    ensures keeps { Keeps store.old store.new }
    ensures counts { IfOk result (λ made. AreCounts store.old.props (tree form.now) made.counts) }
    ensures within { IfOk result (λ made. All (λ count. count ≤ limit) made.counts) }
    ensures whole { IfOk result (λ made. IsLeastOf store.new made.whole (whole_claim store.old.props (tree form.now) empty)) }
    ensures least { IfOk result (λ made.
        IsLeastFor store.old.props (moves_of store.new made.whole) (whole_claim store.old.props (tree form.now) empty)) }
    ensures whole_within { IfOk result (λ made. size_of made.whole ≤ limit) }
    ensures size { IfOk result (λ made.
        HasClassCount store.old.props (whole_claim store.old.props (tree form.now) empty) (size_of made.whole)) }
    ensures only { IfOk result (λ made.
        IsOnlyFor store.old.props (moves_of store.new made.whole) (whole_claim store.old.props (tree form.now) empty)) }
    ensures too_many { IfErr result (λ fault. IfTooMany fault (IsFirstOver store.old.props (tree form.now) empty limit)) }
{
    prove!(store.props() <= 32);
    let mut counts = Counts::new(alloc);
    let automaton = part(alloc, store, form, limit, &mut counts)?;
    let whole = traces(alloc, store, automaton, empty)?;
    counts.admit(whole.size(), limit)?;
    Ok(Translated { counts, whole })
}

// The automaton of the same words but for the empty one, unless that is admitted.
fn traces(
    alloc: Global,
    store: &mut Store,
    automaton: Automaton,
    empty: bool,
) -> Result<Automaton, Memory>
    requires least { IsLeastOf store.old automaton (accepted store.old automaton) }
    ensures keeps { Keeps store.old store.new }
    ensures least { IfOk result (λ made. IsLeastOf store.new made (admitted empty (accepted store.old automaton))) }
{
    prove!(store.props() <= 32);
    if empty {
        return Ok(automaton);
    }
    operators::nonempty(alloc, store, &automaton)
}
