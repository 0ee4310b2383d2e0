//! Equality of a map definition's parts: all fields are equal.
ghost use Rattle.std.specs.Prelude.{◌≡◌, ◌↔◌, IsTrue};
ghost use Rattle.std.specs.Cmp.{partial_equiv_from_equiv};
ghost use Rattle.wf_def.specs.Equality.{class_eq, expression_eq, feature_eq, layer_eq};
ghost use Rattle.wf_def.specs.declared.expression.Expression.TheVariants.{Equals, OneOf};
ghost use Rattle.wf_def.specs.EqualityTheorems.{class_eq_equiv, expression_eq_equiv, feature_eq_equiv, layer_eq_equiv};

use crate::class::Class;
use crate::expression::Expression;
use crate::feature::Feature;
use crate::layer::Layer;
use wf_text::{Text, ValueList};

impl PartialEq for Expression {
    ghost eq = { expression_eq };

    ghost laws = { partial_equiv_from_equiv expression_eq_equiv };

    fn eq(&self, other: &Self) -> bool
        ensures { result ≡ expression_eq self.now other.now }
    {
        match self {
            Expression::Equals(text) => is_text(other, text),
            Expression::OneOf(list) => is_list(other, list),
        }
    }
}

impl Eq for Expression {
    ghost laws = { expression_eq_equiv };
}

/// Whether the expression is this text.
fn is_text(expression: &Expression, text: &Text) -> bool
    ensures { result ≡ expression_eq (Equals text.now) expression.now }
{
    match expression {
        Expression::Equals(other) => text == other,
        Expression::OneOf(_) => false,
    }
}

/// Whether the expression is this list.
fn is_list(expression: &Expression, list: &ValueList) -> bool
    ensures { result ≡ expression_eq (OneOf list.now) expression.now }
{
    match expression {
        Expression::Equals(_) => false,
        Expression::OneOf(other) => list == other,
    }
}

impl PartialEq for Class {
    ghost eq = { class_eq };

    ghost laws = { partial_equiv_from_equiv class_eq_equiv };

    #[tactic(auto, unfolding(crate::specs::Equality::class_eq))]
    fn eq(&self, other: &Self) -> bool
        ensures test { result ≡ class_eq self.now other.now }
        ensures equal { IsTrue result ↔ (self.now ≡ other.now) }
    {
        self.name() == other.name()
            && self.expression() == other.expression()
            && self.styles() == other.styles()
            && self.label() == other.label()
    }
}

impl Eq for Class {
    ghost laws = { class_eq_equiv };
}

impl PartialEq for Feature {
    ghost eq = { feature_eq };

    ghost laws = { partial_equiv_from_equiv feature_eq_equiv };

    #[tactic(auto, unfolding(crate::specs::Equality::feature_eq))]
    fn eq(&self, other: &Self) -> bool
        ensures test { result ≡ feature_eq self.now other.now }
        ensures equal { IsTrue result ↔ (self.now ≡ other.now) }
    {
        self.parts() == other.parts()
            && self.items() == other.items()
            && self.text() == other.text()
    }
}

impl Eq for Feature {
    ghost laws = { feature_eq_equiv };
}

impl PartialEq for Layer {
    ghost eq = { layer_eq };

    ghost laws = { partial_equiv_from_equiv layer_eq_equiv };

    #[tactic(auto, unfolding(crate::specs::Equality::layer_eq))]
    fn eq(&self, other: &Self) -> bool
        ensures test { result ≡ layer_eq self.now other.now }
        ensures equal { IsTrue result ↔ (self.now ≡ other.now) }
    {
        self.kind() == other.kind()
            && self.title() == other.title()
            && self.class_item() == other.class_item()
            && self.label_item() == other.label_item()
            && self.items() == other.items()
            && self.classes() == other.classes()
            && self.features() == other.features()
    }
}

impl Eq for Layer {
    ghost laws = { layer_eq_equiv };
}
