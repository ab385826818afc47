//! A formula that may be a step of a path.
ghost use Rattle.std.specs.Prelude.{◌≡◌};
ghost use Rattle.forms.specs.Tree.{tree};
ghost use Rattle.form_reader.specs.Machine.{is_propositional};

use forms::Form;

/// A formula, and whether it may be a step.
#[derive(Drop)]
pub struct Operand {
    pub form: Form,
    pub propositional: bool,
    pub ghost same: { propositional ≡ is_propositional (tree form) },
}
