ghost use Rattle.std.specs.Prelude.{◌≡◌};
ghost use Rattle.pv_fraction.specs.Amounts.{without};
ghost use Rattle.pv_fraction.specs.Rests.{remainder_of};

use crate::fraction::Fraction;

/// What is left of an amount when another one is taken.
#[derive(Clone, Copy, Debug, PartialEq, Eq, Drop)]
pub enum Rest {
    /// An amount.
    Left(Fraction),
    /// Nothing: both are equal.
    Nothing,
    /// The other one is greater.
    Short,
}

impl Fraction {
    /// What is left when the other amount is taken: `Short` comes exactly where it is greater, and `Nothing` where both are
    /// equal.
    pub fn take(self, other: Fraction) -> Rest
        ensures { remainder_of result ≡ without self other }
    {
        if self.units < other.units {
            Rest::Short
        } else if self.units == other.units {
            Rest::Nothing
        } else {
            Rest::Left(Fraction {
                units: self.units - other.units,
            })
        }
    }
}
