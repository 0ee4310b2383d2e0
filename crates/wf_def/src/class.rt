//! Classes.
ghost use Rattle.std.specs.Prelude.{◌≡◌, IfSome};
ghost use Rattle.wf_def.specs.Limits.{IsClass, IsExpression, IsLabel};

use crate::color::Color;
use crate::expression::Expression;
use crate::label::Label;
use crate::limits::MOST_STYLES;
use crate::members::{Capped, Limited};
use crate::style::Style;
use crate::text::know_text;
use std::alloc::AllocError;
use std::marker::Model;
use wf_text::Text;

/// The styles of a class, in the order in which they are drawn: at most 8, each drawn over the one
/// before it.
pub type Styles = Capped<Style, MOST_STYLES>;

/// A class: which features it contains, and how they are drawn (MapServer mapfile reference,
/// CLASS).
pub struct Class {
    name: Text,
    expression: Option<Expression>,
    styles: Styles,
    label: Option<Label>,
}

// Written by hand: callers then prove one call where they drop a class, not one for each part.
impl Drop for Class {
    fn drop(self) {
        let Class {
            name,
            expression,
            styles,
            label: _,
        } = self;
        drop(name);
        drop(expression);
        drop(styles);
    }
}

impl Model for Class {
    ghost use Rattle.wf_def.specs.Definition.{ClassDefinition};
    ghost use Rattle.wf_def.specs.Limits.{IsClass};

    ghost Value = { ClassDefinition };

    ghost view = { λ c. record { name = c.name; expression = c.expression; styles = c.styles; label = c.label } };

    ghost invariant = { λ c. IsClass (record { name = c.name; expression = c.expression; styles = c.styles; label = c.label }) };
}

impl Class {
    /// The class of the features whose attribute meets the expression, or of all features if there
    /// is none.
    pub fn new(
        name: Text,
        expression: Option<Expression>,
        styles: Styles,
        label: Option<Label>,
    ) -> Self
        ensures { result ≡ record
            { name = name; expression = expression; styles = styles; label = label } }
    {
        know_text(&name);
        know_expression(&expression);
        let _ = styles.as_slice();
        know_label(&label);
        Class {
            name,
            expression,
            styles,
            label,
        }
    }

    /// The name (NAME).
    pub fn name(&self) -> &Text
        ensures value { result.now ≡ self.now.name }
        ensures within { IsClass self.now }
    {
        &self.name
    }

    /// What the attribute of a feature of this class equals (EXPRESSION).
    pub fn expression(&self) -> &Option<Expression>
        ensures value { result.now ≡ self.now.expression }
        ensures within { IsClass self.now }
    {
        &self.expression
    }

    /// How the features are drawn: each style over the one before it (STYLE).
    pub fn styles(&self) -> &[Style]
        ensures value { result.now ≡ self.now.styles }
        ensures within { IsClass self.now }
    {
        self.styles.as_slice()
    }

    /// How the features' labels are drawn, if they are (LABEL).
    pub fn label(&self) -> Option<Label>
        ensures value { result ≡ self.now.label }
        ensures within { IsClass self.now }
    {
        self.label
    }
}

/// Makes it known to the prover that the option's value is an expression within the limits.
fn know_expression(expression: &Option<Expression>)
    ensures { IfSome expression.now IsExpression }
{
    match expression {
        None => {}
        Some(Expression::Equals(text)) => know_text(text),
        Some(Expression::OneOf(list)) => {
            let _ = list.as_bytes();
        }
    }
}

/// Makes it known to the prover that the option's value is a label within the limits.
fn know_label(label: &Option<Label>)
    ensures { IfSome label.now IsLabel }
{
    if let Some(label) = label {
        let Color {
            r: _r,
            g: _g,
            b: _b,
        } = label.color;
        let _ = label.priority.get();
        let _ = label.buffer.get();
    }
}

impl Clone for Class {
    ghost is_clone = { λ class copy. copy ≡ class };

    fn clone(&self) -> Result<Self, AllocError> {
        Ok(Class {
            name: self.name.clone()?,
            expression: self.expression.clone()?,
            styles: self.styles.clone()?,
            label: self.label,
        })
    }
}

impl Limited for Class {
    ghost use Rattle.wf_def.specs.Limits.{IsClass};
    ghost use Rattle.wf_def.specs.EqualityTheorems.{class_eq-Decides};

    ghost IsWithin = { IsClass };

    fn know(&self) {
        let _ = self.name();
    }

    ghost copies = { λ _ _ same. same };

    ghost decides = { class_eq-Decides };
}
