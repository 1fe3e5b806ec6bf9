//! What the calls of an object answer is said by a text, a word for each.

mod keepers;
