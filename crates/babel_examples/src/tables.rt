//! Examples on which the check computes the definitions. Each is the contract of a function that
//! does nothing.

ghost use Rattle.std.specs.Prelude.{◌≡◌};
ghost use Rattle.babel_table.specs.Digits.{binary_digits};

/// The bound on the steps of a look-up.
pub fn digits()
    ensures none { binary_digits 0 ≡ 0 }
    ensures one { binary_digits 1 ≡ 1 }
    ensures three { binary_digits 3 ≡ 2 }
    ensures half { binary_digits 256 ≡ 9 }
    ensures below { binary_digits 511 ≡ 9 }
    ensures whole { binary_digits 512 ≡ 10 }
{}
