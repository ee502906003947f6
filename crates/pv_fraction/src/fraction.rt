ghost use Rattle.std.specs.Prelude.{◌≡◌, ◌*◌, ◌≤◌, is_some, IfSome};
ghost use Rattle.std.specs.Option.{option_map};
ghost use Rattle.pv_fraction.specs.Amounts.{is_part, whole, together};

use std::marker::Model;

/// How many units the whole permission has: the least common multiple of 1 to 40.
pub const UNIT: u64 = 5_342_931_457_063_200;

/// A part of the whole permission, more than nothing. A contract sees it as its number of units.
#[derive(Clone, Copy, Debug, PartialEq, Eq, Drop)]
pub struct Fraction {
    pub(crate) units: u64,
}

impl Model for Fraction {
    ghost use Rattle.std.specs.Prelude.{ℕ, ◌≤◌};
    ghost use Rattle.pv_fraction.specs.Amounts.{whole};

    ghost Value = { ℕ };

    ghost view = { λ f. f.units };

    ghost inverse = { λ n. record { units = n } };

    ghost invariant = { λ f. (1 ≤ f.units) × (f.units ≤ whole) };
}

impl Fraction {
    /// So many parts of so many. None comes exactly where it isn't 1 <= a <= b <= 40.
    pub fn of(a: u32, b: u32) -> Option<Fraction>
        ensures defined { is_some result ≡ is_part a b }
        ensures exact { IfSome result (λ f. f * b ≡ a * whole) }
    {
        if 1 <= a && a <= b && b <= 40 {
            let part = UNIT / b as u64;
            Some(Fraction {
                units: part * a as u64,
            })
        } else {
            None
        }
    }

    /// The sum. None comes exactly where it is more than the whole.
    pub fn add(self, other: Fraction) -> Option<Fraction>
        ensures { option_map (λ f. f) result ≡ together self other }
    {
        let units = self.units + other.units;
        if units <= UNIT {
            Some(Fraction { units })
        } else {
            None
        }
    }

    /// How many units there are: from 1 to `UNIT`.
    pub fn units(self) -> u64
        ensures same { result ≡ self }
        ensures some { 1 ≤ result }
        ensures most { result ≤ whole }
    {
        self.units
    }
}
