//! The words of a text.

ghost use Rattle.std.specs.Prelude.{◌≡◌, IfSome, None};
ghost use Rattle.babel_topology.specs.Words.{HasMark, before_mark, after_mark, blank, dash};

/// The text before the first blank, and the text after it.
pub(crate) fn split_word(text: &str) -> Option<(&str, &str)>
    ensures parted { IfSome result (λ parts. HasMark blank text.now) }
    ensures word { IfSome result (λ parts. parts.0.now ≡ before_mark blank text.now) }
    ensures rest { IfSome result (λ parts. parts.1.now ≡ after_mark blank text.now) }
    ensures whole { result ≡ None → ¬ (HasMark blank text.now) }
{
    text.split_once(' ')
}

/// The text before the first dash, and the text after it.
pub(crate) fn split_dash(text: &str) -> Option<(&str, &str)>
    ensures parted { IfSome result (λ parts. HasMark dash text.now) }
    ensures first { IfSome result (λ parts. parts.0.now ≡ before_mark dash text.now) }
    ensures second { IfSome result (λ parts. parts.1.now ≡ after_mark dash text.now) }
    ensures whole { result ≡ None → ¬ (HasMark dash text.now) }
{
    text.split_once('-')
}
