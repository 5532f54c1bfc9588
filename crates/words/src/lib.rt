// The words and lines of a console text: pieces of it, and each word with its column and its sort.
#![tactic(auto)]

pub mod lines;
pub mod misread;
pub mod number;
pub mod piece;
pub mod reader;
pub mod token;
