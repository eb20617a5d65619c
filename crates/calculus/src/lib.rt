// The specification of document 01 and its laws. It has no code: read specs/ in the order of specs/Lib.antt.

#![tactic(auto)]

// A crate has a function; nobody calls this one.
pub fn nothing() -> usize {
    0
}
