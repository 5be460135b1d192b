//! A law of the code's limit: the contract of a function that does nothing.

ghost use Rattle.std.specs.Prelude.{◌≡◌};
ghost use Rattle.babel_text.specs.declared.errors.TheConstants.{MAX_LINE_LEN};
ghost use Rattle.babel_text.specs.Lines.{max_line_len};

/// The constant of the code is the number of the definitions.
pub fn limits_are_those_of_the_code()
    ensures { MAX_LINE_LEN ≡ max_line_len }
{}
