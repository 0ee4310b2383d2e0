//! The attributes of features, and the class of a feature.
ghost use Rattle.std.specs.Prelude.{◌≡◌, ◌<◌, length, IfSome, option_copied, position, bytes_eq, slice_get};
ghost use Rattle.std.specs.List.{list_any};
ghost use Rattle.wf_def.specs.Attribute.{attribute, attribute_names, attribute_values, between_commas, meets, matches, class_of};

use crate::class::Class;
use crate::expression::Expression;
use crate::feature::Feature;
use crate::layer::Layer;
use wf_text::Text;

impl Layer {
    /// The feature's value under a name (MapServer mapfile reference, ITEMS): the n-th of the
    /// feature's values between semicolons, where the name first occurs as the n-th of the layer's
    /// names between commas. `None` under the empty name, and if the feature has fewer values.
    pub fn attribute<'a>(&self, feature: &'a Feature, name: &Text) -> Option<&'a [u8]>
        ensures { option_copied result ≡ attribute self.now.items feature.now.items name.now }
    {
        attribute_value(
            self.items().as_bytes(),
            feature.items().as_bytes(),
            name.as_bytes(),
        )
    }

    /// The index of the feature's class: the first class without an expression, or whose expression
    /// the feature's value under the layer's CLASSITEM meets: it equals the text, or one of the
    /// list's values, byte for byte. A feature without a class isn't drawn.
    #[tactic(auto, unfolding(crate::specs::Attribute::class_of))]
    pub fn class_of(&self, feature: &Feature) -> Option<usize>
        ensures class { result ≡ class_of self.now feature.now }
        ensures within { IfSome result (λ i. i < length self.now.classes) }
    {
        let value = self.attribute(feature, self.class_item());
        self.classes()
            .iter()
            .position(|class| matches(class, value))
    }
}

/// Whether a feature with this value is in the class.
fn matches(class: &Class, value: Option<&[u8]>) -> bool
    ensures { result ≡ matches class.now.expression (option_copied value.entry) }
{
    match class.expression() {
        None => true,
        Some(expression) => match value {
            None => false,
            Some(value) => meets(expression, value),
        },
    }
}

/// Whether a value meets an expression.
fn meets(expression: &Expression, value: &[u8]) -> bool
    ensures { result ≡ meets expression.now value.now }
{
    match expression {
        Expression::Equals(text) => text.as_bytes() == value,
        Expression::OneOf(list) => is_among(list.as_bytes(), value),
    }
}

/// Whether a value is one of a list's values, which are between commas.
fn is_among(list: &[u8], value: &[u8]) -> bool
    ensures { result ≡ list_any (bytes_eq value.now) (between_commas list.now) }
{
    list.split(|b| *b == b',').any(|piece| value == piece)
}

/// The value under a name, of names between commas and values between semicolons.
#[tactic(auto, unfolding(crate::specs::Attribute::attribute))]
pub fn attribute_value<'a>(names: &[u8], values: &'a [u8], name: &[u8]) -> Option<&'a [u8]>
    ensures { option_copied result ≡ attribute names.now values.now name.now }
{
    if name.is_empty() {
        return None;
    }
    let index = index_of(names, name)?;
    value_at(values, index)
}

/// The index at which the name first occurs among names between commas.
fn index_of(names: &[u8], name: &[u8]) -> Option<usize>
    ensures { result ≡ position (bytes_eq name.now) (attribute_names names.now) }
{
    names.split(|b| *b == b',').position(|piece| name == piece)
}

/// The value at an index, of values between semicolons.
fn value_at(values: &[u8], index: usize) -> Option<&[u8]>
    ensures { option_copied result ≡ slice_get (attribute_values values.now) index }
{
    values.split(|b| *b == b';').nth(index)
}
