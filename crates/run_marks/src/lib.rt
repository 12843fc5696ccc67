//! A set of run numbers as a bitmap of two levels. Memory is reserved once, for all numbers below a bound. After that, marking and
//! unmarking a number takes no memory, and finding the first marked number from a given one reads only a few words.
#![tactic(auto)]

mod levels;
mod marks;
mod row;
mod word;

pub use marks::RunBitmap;
