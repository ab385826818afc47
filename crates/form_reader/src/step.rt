//! What one token does to what waits.
ghost use Rattle.std.specs.Prelude.{◌≡◌, ◌<◌, IfSome, ◌∷◌, vec_len};
ghost use Rattle.forms.specs.Tree.{tree, program};
ghost use Rattle.form_reader.specs.Grammar as grammar;
ghost use Rattle.form_reader.specs.Machine as machine;
ghost use Rattle.form_reader.specs.Stack.{bracket, stack, state_of, Gives, Steps, Closes};
ghost use Rattle.form_reader.specs.Stack.{item as item_of, tighter_than, path_tighter_than, UnlessMemory, Loosens, LoosensPath};

use crate::building::{apply, joined_paths, leaf, star_path, step_path, test_path};
use crate::item::{Bracket, Item, Latest, Operator};
use crate::operand::Operand;
use bes_io::Memory;
use form_tokens::{Infix, Modality, PathInfix, Token};
use forms::{Form, Path};
use std::alloc::{AllocFailed, Global};

/// Why a token has no place.
#[derive(Clone, Copy)]
pub enum StepFault {
    Refused,
    Memory,
}

impl From<Memory> for StepFault {
    ghost use Rattle.form_reader.specs.declared.step.StepFault.TheVariants as faults;

    ghost from_gives = { λ _ e. e ≡ faults.Memory };

    fn from(_: Memory) -> StepFault {
        StepFault::Memory
    }
}

impl<T: Drop> From<AllocFailed<T>> for StepFault {
    ghost use Rattle.form_reader.specs.declared.step.StepFault.TheVariants as faults;

    ghost from_gives = { λ _ e. e ≡ faults.Memory };

    fn from(_: AllocFailed<T>) -> StepFault {
        StepFault::Memory
    }
}

fn level(operator: Infix) -> u8
    ensures { result ≡ grammar.level operator }
{
    match operator {
        Infix::Iff => 0,
        Infix::Implies => 1,
        Infix::Or => 2,
        Infix::And => 3,
        Infix::Until => 4,
        Infix::Release => 4,
    }
}

fn path_level(operator: PathInfix) -> u8
    ensures { result ≡ grammar.path_level operator }
{
    match operator {
        PathInfix::Choice => 0,
        PathInfix::Seq => 1,
    }
}

/// Applies what waits back to the nearest open bracket, which the token is to close.
fn close(
    alloc: Global,
    waiting: &mut Vec<Item>,
    operand: Operand,
    token: Token,
) -> Result<Latest, StepFault>
    ensures { Steps result waiting.new.items (machine.closed (stack waiting.old.items) (tree operand.form) token) }
{
    let mut made = operand;
    while let Some(item) = waiting.pop() {
        match item {
            Item::Operator(operator) => made = apply(alloc, operator, made)?,
            Item::Bracket(b) => return closed(b, made, token),
            Item::PathOperator(_, _) => return Err(StepFault::Refused),
        }
    }
    Err(StepFault::Refused)
}

/// What the token makes of an open bracket and the formula in it.
fn closed(b: Bracket, operand: Operand, token: Token) -> Result<Latest, StepFault>
    ensures { Closes result b (tree operand.form) token }
{
    match (b, token) {
        (Bracket::Formula, Token::Close) => Ok(Latest::Formula(operand)),
        (Bracket::Brace, Token::CloseBrace) => Ok(Latest::Guard(operand)),
        _ => Err(StepFault::Refused),
    }
}

/// Applies what waits back to the nearest open bracket, which the token is to close behind a path.
fn close_path(
    alloc: Global,
    waiting: &mut Vec<Item>,
    path: Path,
    token: Token,
) -> Result<Latest, StepFault>
    ensures { Steps result waiting.new.items (machine.path_closed (stack waiting.old.items) (program path) token) }
{
    let mut made = path;
    while let Some(item) = waiting.pop() {
        match item {
            Item::PathOperator(operator, left) => made = joined_paths(alloc, operator, left, made)?,
            Item::Bracket(b) => return closed_path(waiting, b, made, token),
            Item::Operator(_) => return Err(StepFault::Refused),
        }
    }
    Err(StepFault::Refused)
}

/// What the token makes of an open bracket and the path in it.
fn closed_path(
    waiting: &mut Vec<Item>,
    b: Bracket,
    path: Path,
    token: Token,
) -> Result<Latest, StepFault>
    ensures { Steps result waiting.new.items (machine.path_closed (bracket b ∷ stack waiting.old.items) (program path) token) }
{
    match (b, token) {
        (Bracket::Path, Token::Close) => Ok(Latest::Path(path)),
        (Bracket::Modality(Modality::Diamond), Token::CloseModality(Modality::Diamond)) => {
            wait_behind(waiting, Modality::Diamond, path)
        }
        (Bracket::Modality(Modality::BoxAll), Token::CloseModality(Modality::BoxAll)) => {
            wait_behind(waiting, Modality::BoxAll, path)
        }
        _ => Err(StepFault::Refused),
    }
}

/// Makes a closed path wait, as one prefix operator.
fn wait_behind(waiting: &mut Vec<Item>, modality: Modality, path: Path) -> Result<Latest, StepFault>
    ensures { UnlessMemory result (λ next. state_of waiting.new.items next
        ≡ machine.Due (machine.Behind modality (program path) ∷ stack waiting.old.items)) }
{
    waiting.push(Item::Operator(Operator::Behind(modality, path)))?;
    Ok(Latest::FormulaDue)
}

/// Applies all that waits at the end of the text.
pub fn finish(alloc: Global, waiting: &mut Vec<Item>, operand: Operand) -> Result<Form, StepFault>
    ensures { Gives result (machine.finished (stack waiting.old.items) (tree operand.form)) }
{
    let mut made = operand;
    while let Some(item) = waiting.pop() {
        match item {
            Item::Operator(operator) => made = apply(alloc, operator, made)?,
            Item::Bracket(_) => return Err(StepFault::Refused),
            Item::PathOperator(_, _) => return Err(StepFault::Refused),
        }
    }
    Ok(made.form)
}

/// Whether an item is applied before a binary operator comes to wait.
fn is_tighter(item: &Item, operator: Infix) -> bool
    ensures { result ≡ tighter_than operator (item_of item.now) }
{
    match item {
        Item::Operator(Operator::Before(_)) => true,
        Item::Operator(Operator::Behind(_, _)) => true,
        Item::Operator(Operator::Between(q, _)) => level(operator) < level(*q),
        Item::Bracket(_) => false,
        Item::PathOperator(_, _) => false,
    }
}

/// Takes the latest item away if it is applied before a binary operator comes to wait.
fn pop_tighter(waiting: &mut Vec<Item>, operator: Infix) -> Option<Operator>
    ensures found { Loosens operator result (stack waiting.old.items) (stack waiting.new.items) }
    ensures shorter { IfSome result (λ tighter. vec_len waiting.new < vec_len waiting.old) }
{
    match waiting.last() {
        Some(latest) => {
            if !is_tighter(latest, operator) {
                return None;
            }
        }
        None => return None,
    }
    match waiting.pop() {
        Some(Item::Operator(tighter)) => Some(tighter),
        _ => unreachable!(),
    }
}

/// Makes a binary operator wait with its left operand.
fn extend(
    alloc: Global,
    waiting: &mut Vec<Item>,
    operator: Infix,
    operand: Operand,
) -> Result<(), StepFault>
    ensures { UnlessMemory result (λ _. stack waiting.new.items
        ≡ machine.extended operator (stack waiting.old.items) (tree operand.form)) }
{
    let mut made = operand;
    while let Some(tighter) = pop_tighter(waiting, operator) {
        made = apply(alloc, tighter, made)?;
    }
    waiting.push(Item::Operator(Operator::Between(operator, made)))?;
    Ok(())
}

/// Whether an item is applied before an operator between paths comes to wait.
fn is_tighter_path(item: &Item, operator: PathInfix) -> bool
    ensures { result ≡ path_tighter_than operator (item_of item.now) }
{
    match item {
        Item::PathOperator(q, _) => path_level(operator) < path_level(*q),
        Item::Bracket(_) => false,
        Item::Operator(_) => false,
    }
}

/// Takes the latest item away if it is applied before an operator between paths comes to wait.
fn pop_tighter_path(waiting: &mut Vec<Item>, operator: PathInfix) -> Option<(PathInfix, Path)>
    ensures found { LoosensPath operator result (stack waiting.old.items) (stack waiting.new.items) }
    ensures shorter { IfSome result (λ tighter. vec_len waiting.new < vec_len waiting.old) }
{
    match waiting.last() {
        Some(latest) => {
            if !is_tighter_path(latest, operator) {
                return None;
            }
        }
        None => return None,
    }
    match waiting.pop() {
        Some(Item::PathOperator(tighter, left)) => Some((tighter, left)),
        _ => unreachable!(),
    }
}

/// Makes an operator between paths wait with its left path.
fn extend_path(
    alloc: Global,
    waiting: &mut Vec<Item>,
    operator: PathInfix,
    path: Path,
) -> Result<(), StepFault>
    ensures { UnlessMemory result (λ _. stack waiting.new.items
        ≡ machine.path_extended operator (stack waiting.old.items) (program path)) }
{
    let mut made = path;
    while let Some((tighter, left)) = pop_tighter_path(waiting, operator) {
        made = joined_paths(alloc, tighter, left, made)?;
    }
    waiting.push(Item::PathOperator(operator, made))?;
    Ok(())
}

/// One token: what waits changes, and what was read after it.
pub fn step(
    alloc: Global,
    waiting: &mut Vec<Item>,
    latest: Latest,
    token: Token,
) -> Result<Latest, StepFault>
    ensures { Steps result waiting.new.items (machine.step (state_of waiting.old.items latest) token) }
{
    match latest {
        Latest::FormulaDue => begin_formula(alloc, waiting, token),
        Latest::Formula(operand) => after_formula(alloc, waiting, operand, token),
        Latest::PathDue => begin_path(alloc, waiting, token),
        Latest::Guard(operand) => after_guard(alloc, waiting, operand, token),
        Latest::Path(path) => after_path(alloc, waiting, path, token),
        Latest::Starred(path) => after_star(alloc, waiting, path, token),
    }
}

/// A token where a formula is due.
fn begin_formula(alloc: Global, waiting: &mut Vec<Item>, token: Token) -> Result<Latest, StepFault>
    ensures { Steps result waiting.new.items (machine.step (machine.Due (stack waiting.old.items)) token) }
{
    match token {
        Token::Leaf(l) => Ok(Latest::Formula(leaf(alloc, l)?)),
        Token::Open => {
            waiting.push(Item::Bracket(Bracket::Formula))?;
            Ok(Latest::FormulaDue)
        }
        Token::Prefix(p) => {
            waiting.push(Item::Operator(Operator::Before(p)))?;
            Ok(Latest::FormulaDue)
        }
        Token::OpenModality(m) => {
            waiting.push(Item::Bracket(Bracket::Modality(m)))?;
            Ok(Latest::PathDue)
        }
        _ => Err(StepFault::Refused),
    }
}

/// A token after a formula.
fn after_formula(
    alloc: Global,
    waiting: &mut Vec<Item>,
    operand: Operand,
    token: Token,
) -> Result<Latest, StepFault>
    ensures { Steps result waiting.new.items (machine.step (machine.After (stack waiting.old.items) (tree operand.form)) token) }
{
    match token {
        Token::Infix(operator) => {
            extend(alloc, waiting, operator, operand)?;
            Ok(Latest::FormulaDue)
        }
        Token::Close | Token::CloseBrace => close(alloc, waiting, operand, token),
        _ => Err(StepFault::Refused),
    }
}

/// A token where a path is due.
fn begin_path(alloc: Global, waiting: &mut Vec<Item>, token: Token) -> Result<Latest, StepFault>
    ensures { Steps result waiting.new.items (machine.step (machine.PathDue (stack waiting.old.items)) token) }
{
    match token {
        Token::Leaf(l) => Ok(Latest::Guard(leaf(alloc, l)?)),
        Token::OpenBrace => {
            waiting.push(Item::Bracket(Bracket::Brace))?;
            Ok(Latest::FormulaDue)
        }
        Token::Open => {
            waiting.push(Item::Bracket(Bracket::Path))?;
            Ok(Latest::PathDue)
        }
        _ => Err(StepFault::Refused),
    }
}

/// A token after what a step or a test holds.
fn after_guard(
    alloc: Global,
    waiting: &mut Vec<Item>,
    operand: Operand,
    token: Token,
) -> Result<Latest, StepFault>
    ensures { Steps result waiting.new.items (machine.step_guard (stack waiting.old.items) (tree operand.form) token) }
{
    match token {
        Token::Question => Ok(Latest::Path(test_path(alloc, operand)?)),
        _ => after_step(alloc, waiting, operand, token),
    }
}

/// A token other than `?` after what a step holds.
fn after_step(
    alloc: Global,
    waiting: &mut Vec<Item>,
    operand: Operand,
    token: Token,
) -> Result<Latest, StepFault>
    ensures { Steps result waiting.new.items (machine.step_stepped (stack waiting.old.items) (tree operand.form) token) }
{
    if !operand.propositional {
        return Err(StepFault::Refused);
    }
    let path = step_path(alloc, operand)?;
    after_path(alloc, waiting, path, token)
}

/// A token after a path that may take a star.
fn after_path(
    alloc: Global,
    waiting: &mut Vec<Item>,
    path: Path,
    token: Token,
) -> Result<Latest, StepFault>
    ensures { Steps result waiting.new.items (machine.step_based (stack waiting.old.items) (program path) token) }
{
    match token {
        Token::Star => Ok(Latest::Starred(star_path(alloc, path)?)),
        _ => after_star(alloc, waiting, path, token),
    }
}

/// A token after a path that takes no star.
fn after_star(
    alloc: Global,
    waiting: &mut Vec<Item>,
    path: Path,
    token: Token,
) -> Result<Latest, StepFault>
    ensures { Steps result waiting.new.items (machine.step_starred (stack waiting.old.items) (program path) token) }
{
    match token {
        Token::PathInfix(operator) => {
            extend_path(alloc, waiting, operator, path)?;
            Ok(Latest::PathDue)
        }
        Token::Close | Token::CloseModality(_) => close_path(alloc, waiting, path, token),
        _ => Err(StepFault::Refused),
    }
}
