// The list of sub-questions by value, and its rules.
#![tactic(auto)]

pub mod entry;
pub mod kind;
pub mod rules;

pub use entry::Entry;
pub use kind::Kind;

// A list of sub-questions: how many entries, and for each the byte of its kind and two operands; a word's are its start
// and its length. What is not used is 0 from the reader. C shares this struct, so a kind is a byte here.
#[repr(C)]
#[derive(Clone, Copy)]
pub struct List {
    pub count: usize,
    pub kinds: [u8; 32],
    pub left: [u8; 32],
    pub right: [u8; 32],
}
