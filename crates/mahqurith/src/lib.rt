// The calls for C, as `include/mahqurith.h` declares them: each is the call of that name in the crate where it is proved.
#![tactic(auto)]

mod blocks;
mod bundling;
mod digests;
mod judging;
mod keeping;
mod layouts;
mod passing;
mod positions;
mod storing;
