//! Expressions of classes.

use std::alloc::AllocError;
use wf_text::{Text, ValueList};

/// Which value of its attribute puts a feature into a class (MapServer mapfile reference,
/// EXPRESSION).
#[derive(Drop)]
pub enum Expression {
    /// The value equals this text.
    Equals(Text),
    /// The value equals one of this list's values.
    OneOf(ValueList),
}

impl Clone for Expression {
    ghost use Rattle.std.specs.Prelude.{◌≡◌};

    ghost is_clone = { λ expression copy. copy ≡ expression };

    fn clone(&self) -> Result<Self, AllocError> {
        match self {
            Expression::Equals(text) => Ok(Expression::Equals(text.clone()?)),
            Expression::OneOf(list) => Ok(Expression::OneOf(list.clone()?)),
        }
    }
}
