//! A list of what there was, which only proofs read.
//!
//! **Model.** A [`Past`] has `items`, a list of pairs. It takes no memory, and its calls do nothing
//! at run time.
//!
//! **Promises.** A new one is empty; [`Past::and`] has one pair more at its end.
//!
//! **Doesn't.** It keeps no value: nothing that it lists is kept alive, or can be read again.
#![tactic(auto)]

mod past;

pub use past::Past;
