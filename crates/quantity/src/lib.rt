//! Amount types, and what is written once for all of them.
//!
//! A [`Quantity`] is an amount type whose values mean elements of an abelian group. The crate has three: [`Mass`](mass),
//! [`Totaliser`](totaliser) and [`Components`](components). Code that is generic over `Quantity` is proved from the laws
//! of a group alone, so it serves all three, and any other type that keeps the laws.
#![tactic(auto)]

ghost use Rattle.std.specs.Prelude.{◌≡◌, IsTrue, ◌↔◌, ◌≢◌};
ghost use Rattle.quantity.specs.Model.{Model};

pub mod components;
pub mod mass;
pub mod sheet;
pub mod sums;
#[cfg(test)]
mod tests;
pub mod totaliser;

/// An amount that means an element of an abelian group.
///
/// An implementation gives its `model`: the group with its laws, and the element that each value means. Its functions
/// follow the group. Nothing else is asked of it.
pub trait Quantity: Copy {
    ghost model: { Model Self };

    /// The amount that adds nothing.
    fn zero() -> Self
        ensures { model.means result ≡ model.group.zero };

    /// The sum of two amounts.
    fn plus(self, other: Self) -> Self
        ensures { model.means result ≡ model.group.plus (model.means self) (model.means other) };

    /// The amount that sums to zero with this one.
    fn negative(self) -> Self
        ensures { model.means result ≡ model.group.minus (model.means self) };

    /// Whether two amounts mean the same element.
    fn same(self, other: Self) -> bool
        ensures { IsTrue result ↔ (model.means self ≡ model.means other) };

    /// An amount that differs from zero.
    fn nonzero() -> Self
        ensures { model.means result ≢ model.group.zero };
}
