//! A trace judged in blocks, from its last letter backwards.
ghost use Rattle.std.specs.Prelude.{◌≡◌, ◌≤◌, ◌<◌, IfOk, length};
ghost use Rattle.forms.specs.Satisfaction.{meets};
ghost use Rattle.forms.specs.Proper.{IsProper};
ghost use Rattle.forms.specs.Tree.{tree};

use crate::block::block;
use crate::building::Builder;
use bes_io::Memory;
use forms::Form;
use std::alloc::Global;

/// How many positions are judged at a time.
const BLOCK: usize = 1024;

/// Whether the trace meets the formula: whether it holds at the first letter. Of a letter, the bits
/// of weight 2^(props-1) and below count. Beside the letters it takes memory by the formula alone.
#[tactic(auto, using(crate::proofs::Kept::judging))]
pub fn judge(alloc: Global, form: &Form, props: u32, word: &[u64]) -> Result<bool, Memory>
    requires proper { IsProper props (tree form.now) }
    requires at_most_32 { props ≤ 32 }
    requires nonempty { 0 < length word.now }
    ensures { IfOk result (λ answer. answer ≡ meets props (tree form.now) word.now) }
{
    let mut built = Builder { alloc, props }.build(form)?;
    let mut value = built.at_end;
    let mut end = word.len();
    while end > 0 {
        let start = end.saturating_sub(BLOCK);
        let column = block(alloc, &mut built.node, &word[start..end])?;
        value = column[0];
        end = start;
    }
    Ok(value)
}
