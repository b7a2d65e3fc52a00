//! Laws of the definitions, each the contract of a function with an empty body.

pub mod candidates;
pub mod canonical_form;
pub mod filters;
pub mod link_state;
pub mod packing;
pub mod reading;
pub mod sessions;
pub mod walks;
