//! Values of the tests, made of constants. An invalid value is refused with 75.

use std::alloc::Global;
use wf_value::{Chars, Code, Combo, Refusal, Same, Scalar, TryCopy};

/// A scalar.
#[derive(Clone, Copy)]
pub enum Literal {
    Null,
    Truth(bool),
    Whole(i64),
    Text(&'static str),
}

pub fn scalar(alloc: Global, given: &Literal) -> Result<Scalar, Refusal> {
    match given {
        Literal::Null => Ok(Scalar::Null),
        Literal::Truth(truth) => Ok(Scalar::Truth(*truth)),
        Literal::Whole(whole) => Ok(Scalar::Whole(*whole)),
        Literal::Text(text) => Ok(Scalar::Text(Chars::from_str(alloc, text)?)),
    }
}

pub fn scalars(alloc: Global, given: &[Literal]) -> Result<Vec<Scalar>, Refusal> {
    let mut scalars = Vec::new(alloc);
    for one in given {
        scalars.push(scalar(alloc, one)?)?;
    }
    Ok(scalars)
}

pub fn texts(alloc: Global, given: &[&str]) -> Result<Vec<Chars>, Refusal> {
    let mut texts = Vec::new(alloc);
    for text in given {
        texts.push(Chars::from_str(alloc, text)?)?;
    }
    Ok(texts)
}

fn pair(alloc: Global, name: &str, given: &Literal) -> Result<(Chars, Scalar), Refusal> {
    let value = scalar(alloc, given)?;
    Ok((Chars::from_str(alloc, name)?, value))
}

pub fn pairs(alloc: Global, given: &[(&str, Literal)]) -> Result<Vec<(Chars, Scalar)>, Refusal> {
    let mut pairs = Vec::new(alloc);
    for (name, value) in given {
        pairs.push(pair(alloc, name, value)?)?;
    }
    Ok(pairs)
}

/// Names that do not increase are refused.
pub fn combo(alloc: Global, given: &[(&str, Literal)]) -> Result<Combo, Refusal> {
    let pairs = pairs(alloc, given)?;
    if Combo::names_rise(pairs.as_slice()) {
        Ok(Combo::from_pairs(pairs))
    } else {
        Err(Refusal::Numbered(Code::Line))
    }
}

/// Whether the value is the same as the one at this index, and differs from all others.
fn is_only_at<T: Same>(value: &T, values: &[T], index: usize) -> bool {
    values
        .iter()
        .enumerate()
        .all(|(other, one)| value.same(one) == (other == index))
}

/// Whether all values differ, and each is the same as its copy.
pub fn are_distinct<T: Same + TryCopy + Drop>(
    alloc: Global,
    values: &[T],
) -> Result<bool, Refusal> {
    for (index, value) in values.iter().enumerate() {
        let copy = value.copy(alloc)?;
        if !is_only_at(value, values, index) || !is_only_at(&copy, values, index) {
            return Ok(false);
        }
    }
    Ok(true)
}
