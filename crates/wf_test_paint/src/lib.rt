//! Questions of test cases about the painter, labels and pictures: pictures as letters and as
//! files, where a view shows a point, and cells of the grid of tiles. [`ask`] lists them;
//! `wf_test_map` has the table.
//!
//! It has no contract of its own: its answers are those of `wf_geometry`, `wf_paint`, `wf_label`
//! and `wf_picture`, put into words.
#![tactic(auto)]

mod cell;
mod file;
mod letter;
mod picture;
mod position;
mod questions;
mod request;
mod section;
mod window;

pub use questions::ask;
