//! Nodes and tracks built from formulas and path programs, with what holds at the end of the word.
ghost use Rattle.std.specs.Prelude.{◌≡◌, [], ◌&&◌, false, IfOk};
ghost use Rattle.forms.specs.Proper.{IsProper, IsProperProgram};
ghost use Rattle.forms.specs.Satisfaction.{sat, goes};
ghost use Rattle.forms.specs.Tree.{program, tree};
ghost use Rattle.forms.specs.Word.{Claim};
ghost use Rattle.trace_meaning.specs.Kept.{kept, path_kept};
ghost use Rattle.trace_meaning.specs.Operator as operator;
ghost use Rattle.trace_meaning.specs.State as shape;
ghost use Rattle.trace_meaning.specs.State.{state, path_state};

use crate::node::{Lead, Node, Track};
use crate::operator::{Binary, Unary};
use bes_io::Memory;
use forms::{Form, Path};
use std::alloc::Global;

/// A formula before any letter is judged, and whether it holds at the end of the word.
#[derive(Drop)]
pub struct Built {
    pub node: Node,
    pub at_end: bool,
}

/// A path program before any letter is judged, and whether it stays at the end of the word.
#[derive(Drop)]
pub struct BuiltPath {
    pub track: Track,
    pub stays: bool,
}

/// Builds nodes from formulas over so many propositions.
#[derive(Clone, Copy)]
pub struct Builder {
    pub alloc: Global,
    pub props: u32,
}

impl Builder {
    fn leaf(self, node: Node, at_end: bool) -> Built
        ensures node { state result.node ≡ state node }
        ensures at_end { result.at_end ≡ at_end }
    {
        Built { node, at_end }
    }

    fn unary(self, op: Unary, f: Built) -> Result<Built, Memory>
        ensures node { IfOk result (λ made.
            state made.node ≡ shape.Unary op (state f.node) (operator.unary_at_end op f.at_end)) }
        ensures at_end { IfOk result (λ made. made.at_end ≡ operator.unary_at_end op f.at_end) }
    {
        let at_end = op.at_end(f.at_end);
        let node = Node::Unary(op, Box::new(self.alloc, f.node)?, at_end);
        Ok(Built { node, at_end })
    }

    fn binary(self, op: Binary, f: Built, g: Built) -> Result<Built, Memory>
        ensures node { IfOk result (λ made.
            let value = operator.binary_at_end op f.at_end g.at_end in
            state made.node ≡ shape.Binary op (state f.node) (state g.node) value) }
        ensures at_end { IfOk result (λ made.
            made.at_end ≡ operator.binary_at_end op f.at_end g.at_end) }
    {
        let at_end = op.at_end(f.at_end, g.at_end);
        let f = Box::new(self.alloc, f.node)?;
        let g = Box::new(self.alloc, g.node)?;
        let node = Node::Binary(op, f, g, at_end);
        Ok(Built { node, at_end })
    }

    fn diamond(self, p: BuiltPath, f: Built) -> Result<Built, Memory>
        ensures node { IfOk result (λ made.
            state made.node ≡ shape.Diamond (path_state p.track) (state f.node) f.at_end) }
        ensures at_end { IfOk result (λ made. made.at_end ≡ (p.stays && f.at_end)) }
    {
        let at_end = p.stays && f.at_end;
        let p = Box::new(self.alloc, p.track)?;
        let node = Node::Diamond(p, Box::new(self.alloc, f.node)?, f.at_end);
        Ok(Built { node, at_end })
    }

    /// The formula at the end of the word.
    #[cycle(build)]
    #[tactic(auto, using(crate::proofs::Ends::ends))]
    pub fn build(self, form: &Form) -> Result<Built, Memory>
        requires { IsProper self.props (tree form.now) }
        ensures node { IfOk result (λ made. state made.node ≡ kept self.props (tree form.now) []) }
        ensures at_end { IfOk result (λ made. made.at_end ≡ sat self.props (tree form.now) []) }
    {
        match form {
            Form::True => Ok(self.leaf(Node::Fixed(true), true)),
            Form::False => Ok(self.leaf(Node::Fixed(false), false)),
            Form::Atom(i) => Ok(self.leaf(Node::Atom(self.props - 1 - *i), false)),
            Form::Not(f) => self.unary(Unary::Not, self.build(f)?),
            Form::And(f, g) => self.binary(Binary::And, self.build(f)?, self.build(g)?),
            Form::Or(f, g) => self.binary(Binary::Or, self.build(f)?, self.build(g)?),
            Form::Implies(f, g) => self.binary(Binary::Implies, self.build(f)?, self.build(g)?),
            Form::Iff(f, g) => self.binary(Binary::Iff, self.build(f)?, self.build(g)?),
            Form::Next(f) => self.unary(Unary::Next, self.build(f)?),
            Form::WeakNext(f) => self.unary(Unary::WeakNext, self.build(f)?),
            Form::Until(f, g) => self.binary(Binary::Until, self.build(f)?, self.build(g)?),
            Form::Release(f, g) => self.binary(Binary::Release, self.build(f)?, self.build(g)?),
            Form::Eventually(f) => self.unary(Unary::Eventually, self.build(f)?),
            Form::Always(f) => self.unary(Unary::Always, self.build(f)?),
            Form::Diamond(p, f) => self.diamond(self.build_path(p)?, self.build(f)?),
            Form::BoxAll(p, f) => {
                let not = self.unary(Unary::Not, self.build(f)?)?;
                let some = self.diamond(self.build_path(p)?, not)?;
                self.unary(Unary::Not, some)
            }
        }
    }

    fn step(self, f: Built) -> Result<BuiltPath, Memory>
        ensures track { IfOk result (λ made. path_state made.track ≡ shape.Step (state f.node) []) }
        ensures stays { IfOk result (λ made. made.stays ≡ false) }
    {
        let node = Box::new(self.alloc, f.node)?;
        let track = Track::Step(node, Vec::new(self.alloc));
        Ok(BuiltPath {
            track,
            stays: false,
        })
    }

    fn test(self, f: Built) -> Result<BuiltPath, Memory>
        ensures track { IfOk result (λ made. path_state made.track ≡ shape.Test (state f.node) []) }
        ensures stays { IfOk result (λ made. made.stays ≡ f.at_end) }
    {
        let node = Box::new(self.alloc, f.node)?;
        let track = Track::Test(node, Vec::new(self.alloc));
        Ok(BuiltPath {
            track,
            stays: f.at_end,
        })
    }

    fn seq(self, p: BuiltPath, q: BuiltPath) -> Result<BuiltPath, Memory>
        ensures track { IfOk result (λ made.
            path_state made.track ≡ shape.Seq (path_state p.track) (path_state q.track) (record { further = false; stays = q.stays })) }
        ensures stays { IfOk result (λ made. made.stays ≡ (p.stays && q.stays)) }
    {
        let next = Lead {
            further: false,
            stays: q.stays,
        };
        let first = Box::new(self.alloc, p.track)?;
        let track = Track::Seq(first, Box::new(self.alloc, q.track)?, next);
        Ok(BuiltPath {
            track,
            stays: p.stays && q.stays,
        })
    }

    #[cycle(build)]
    #[tactic(auto, using(crate::proofs::Ends::ends))]
    fn build_path(self, path: &Path) -> Result<BuiltPath, Memory>
        requires { IsProperProgram self.props (program path.now) }
        ensures track { IfOk result (λ made. (k : Claim) →
            path_state made.track ≡ path_kept self.props (program path.now) k [] []) }
        ensures stays { IfOk result (λ made.
            made.stays ≡ goes self.props (program path.now) [] []) }
    {
        match path {
            Path::Step(f) => self.step(self.build(f)?),
            Path::Test(f) => self.test(self.build(f)?),
            Path::Choice(p, q) => {
                let p = self.build_path(p)?;
                let q = self.build_path(q)?;
                let stays = p.stays || q.stays;
                let p = Box::new(self.alloc, p.track)?;
                let track = Track::Choice(p, Box::new(self.alloc, q.track)?);
                Ok(BuiltPath { track, stays })
            }
            Path::Seq(p, q) => self.seq(self.build_path(p)?, self.build_path(q)?),
            Path::Star(p) => {
                let p = self.build_path(p)?;
                let track = Track::Star(Box::new(self.alloc, p.track)?, false);
                Ok(BuiltPath { track, stays: true })
            }
        }
    }
}
