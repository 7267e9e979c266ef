// The packed layouts: one element as codes in bytes, and back (SPEC 6.1 to 6.6).
#![tactic(auto)]

pub mod layout;
pub mod pack;
pub mod unpack;
