// The C interface: each function of `include/ncc_sign.h`. It hands its arguments to the library and turns the answer into one number.
#![tactic(auto)]

mod answer;
pub mod hash;
pub mod pack;
pub mod product;
pub mod round;
pub mod samplers;
pub mod signatures;
