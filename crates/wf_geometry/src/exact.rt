//! Exact integer arithmetic for views and coverage: one function for each operation.
ghost use Rattle.std.specs.Prelude.{◌≡◌, ◌≤◌, ◌^◌, nat_abs};
ghost use Rattle.wf_geometry.specs.Near.{IsNear, IsDistance, IsArea};
ghost use Rattle.wf_geometry.specs.Exact.{difference, product, opposite, is_less};

/// `a` less `b`.
#[tactic(auto, unfolding(crate::specs::Exact::difference))]
pub(crate) fn difference(a: i64, b: i64) -> i64
    requires first { IsNear a }
    requires second { IsNear b }
    ensures value { result ≡ difference a b }
    ensures within { IsDistance result }
{
    a - b
}

/// The product of two distances.
#[tactic(auto, unfolding(crate::specs::Exact::product))]
pub(crate) fn product(a: i64, b: i64) -> i128
    requires first { IsDistance a }
    requires second { IsDistance b }
    ensures value { result ≡ product a b }
    ensures within { IsArea result }
{
    i128::from(a) * i128::from(b)
}

/// The product `a` less the product `b`.
#[tactic(auto, unfolding(crate::specs::Exact::difference))]
pub(crate) fn area_difference(a: i128, b: i128) -> i128
    requires first { IsArea a }
    requires second { IsArea b }
    ensures value { result ≡ difference a b }
    ensures within { nat_abs result ≤ 2 ^ 109 }
{
    a - b
}

/// The negative of a product.
#[tactic(auto, unfolding(crate::specs::Exact::opposite))]
pub(crate) fn opposite(a: i128) -> i128
    requires { IsArea a }
    ensures value { result ≡ opposite a }
    ensures within { IsArea result }
{
    -a
}

/// Whether one position is less than another.
#[tactic(auto, unfolding(crate::specs::Exact::is_less))]
pub(crate) fn is_less(a: i64, b: i64) -> bool
    ensures { result ≡ is_less a b }
{
    a < b
}

/// Whether one product is less than another.
#[tactic(auto, unfolding(crate::specs::Exact::is_less))]
pub(crate) fn is_less_area(a: i128, b: i128) -> bool
    ensures { result ≡ is_less a b }
{
    a < b
}
