//! Whether templates, and what is made of them, are the same.

ghost use Rattle.std.specs.Prelude.{◌≡◌, ◌↔◌, IsTrue};

use wf_expr::{Operand, Piece, Template};
use wf_reader::{Concurrency, Flag};
use wf_value::Same;

fn same_operand(one: &Operand, other: &Operand) -> bool
    ensures { IsTrue result ↔ (one.now ≡ other.now) }
{
    match (one, other) {
        (Operand::Quoted(one), Operand::Quoted(other)) => one.same(other),
        (Operand::Reference(one), Operand::Reference(other)) => one.same(other),
        _ => false,
    }
}

fn same_operands(one: &[Operand], other: &[Operand]) -> bool
    ensures { IsTrue result ↔ (one.now ≡ other.now) }
{
    if one.len() != other.len() {
        return false;
    }
    for (x, y) in one.iter().zip(other) {
        if !same_operand(x, y) {
            return false;
        }
    }
    true
}

fn same_piece(one: &Piece, other: &Piece) -> bool
    ensures { IsTrue result ↔ (one.now ≡ other.now) }
{
    match (one, other) {
        (Piece::Plain(one), Piece::Plain(other)) => one.same(other),
        (Piece::Braced(one), Piece::Braced(other)) => {
            same_operands(one.as_slice(), other.as_slice())
        }
        _ => false,
    }
}

fn same_pieces(one: &[Piece], other: &[Piece]) -> bool
    ensures { IsTrue result ↔ (one.now ≡ other.now) }
{
    if one.len() != other.len() {
        return false;
    }
    for (x, y) in one.iter().zip(other) {
        if !same_piece(x, y) {
            return false;
        }
    }
    true
}

fn same_template(one: &Template, other: &Template) -> bool
    ensures { IsTrue result ↔ (one.now ≡ other.now) }
{
    same_pieces(one.pieces(), other.pieces())
}

pub(crate) fn same_templates(one: &[Template], other: &[Template]) -> bool
    ensures { IsTrue result ↔ (one.now ≡ other.now) }
{
    if one.len() != other.len() {
        return false;
    }
    for (x, y) in one.iter().zip(other) {
        if !same_template(x, y) {
            return false;
        }
    }
    true
}

pub(crate) fn same_flag(one: &Flag, other: &Flag) -> bool
    ensures { IsTrue result ↔ (one.now ≡ other.now) }
{
    match (one, other) {
        (Flag::Fixed(one), Flag::Fixed(other)) => *one == *other,
        (Flag::Template(one), Flag::Template(other)) => same_template(one, other),
        _ => false,
    }
}

fn same_request(one: &Concurrency, other: &Concurrency) -> bool
    ensures { IsTrue result ↔ (one.now ≡ other.now) }
{
    same_template(&one.group, &other.group)
        && same_flag(&one.cancel_in_progress, &other.cancel_in_progress)
}

pub(crate) fn same_concurrency(one: &Option<Concurrency>, other: &Option<Concurrency>) -> bool
    ensures { IsTrue result ↔ (one.now ≡ other.now) }
{
    match (one, other) {
        (Some(one), Some(other)) => same_request(one, other),
        (None, None) => true,
        _ => false,
    }
}
