use std::alloc::Global;
use wf_value::{Chars, Refusal, Sequence, TryCopy};

/// An operand of an expression: a text in single quotes, or a reference. A reference is the list of its names; the first is that of
/// its context, such as `github` in `github.head_ref`.
#[derive(Drop)]
pub enum Operand {
    Quoted(Chars),
    Reference(Sequence<Chars>),
}

/// A piece of a template: plain text, or the operands that `||` joins in `${{ }}`.
#[derive(Drop)]
pub enum Piece {
    Plain(Chars),
    Braced(Sequence<Operand>),
}

impl TryCopy for Operand {
    fn copy(&self, alloc: Global) -> Result<Self, Refusal> {
        match self {
            Operand::Quoted(text) => Ok(Operand::Quoted(text.copy(alloc)?)),
            Operand::Reference(names) => Ok(Operand::Reference(names.copy(alloc)?)),
        }
    }
}

impl TryCopy for Piece {
    fn copy(&self, alloc: Global) -> Result<Self, Refusal> {
        match self {
            Piece::Plain(text) => Ok(Piece::Plain(text.copy(alloc)?)),
            Piece::Braced(operands) => Ok(Piece::Braced(operands.copy(alloc)?)),
        }
    }
}
