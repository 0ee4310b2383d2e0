//! Each call, type, variant and field that users of the crates rely on, named once. A name that is
//! gone, hidden or moved makes this crate fail to compile, so none can vanish without a word. Those
//! of `wf_commands` are in `wf_test_commands`: a crate above all others is dear to check. The table
//! "Names" of docs/DECISIONS.md has those that stand elsewhere than they were first asked for, or
//! have another form.
//!
//! Nothing is called: a call is named as a value, and types, variants and fields by patterns.
#![tactic(auto)]

mod agreement;
mod farms;
mod maps;
mod nodes;
mod pictures;
mod services;
