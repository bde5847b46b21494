// The maker of handover bundles of document 02, M-106: the new roll, the lists, the order of refusals, and the call for C.
#![tactic(auto)]

mod call;
mod lists;
mod rows_made;
mod sizes;

pub use call::mahqurith_make_bundle;
