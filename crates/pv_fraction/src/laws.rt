//! Laws of amounts, over numbers of units: each is a function that proves its clause and answers nothing.
ghost use Rattle.std.specs.Prelude.{◌≡◌, ◌+◌, ◌<◌, ℕ};
ghost use Rattle.pv_fraction.specs.Amounts.{together, without, left, with_option, option_with};

/// Addition commutes, also where it isn't defined.
pub fn commutes()
    ensures { (a b : ℕ) → together a b ≡ together b a }
{}

/// Addition associates, and one side is defined where the other is.
pub fn associates()
    ensures { (a b c : ℕ) → option_with (together a b) c ≡ with_option a (together b c) }
{}

/// Taking undoes adding.
pub fn take_undoes_add()
    ensures { (a b : ℕ) → 0 < a → without (a + b) b ≡ left a }
{}
