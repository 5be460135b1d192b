//! Fields with blanks between them.

ghost use Rattle.std.specs.Prelude.{◌≡◌, ◌<◌, ◌==◌, IsTrue, MatchOption, length};
ghost use Rattle.std.specs.List.{position_or_len};
ghost use Rattle.babel_text.specs.Fields.{HasBlank, before_blank, after_blank};

/// The text before the first blank and the text after it. All fields that are split off are short,
/// so a loop takes less than a search by words of octets.
pub fn split_field(text: &[u8]) -> Option<(&[u8], &[u8])>
    ensures { MatchOption result (¬ (HasBlank text.now)) (λ f. HasBlank text.now × (f.0.now ≡ before_blank text.now) × (f.1.now ≡ after_blank text.now)) }
{
    for index in 0..text.len() {
        if text[index] == b' ' {
            return Some((&text[..index], &text[index + 1..]));
        }
    }
    None
}

/// Whether the octet at the index is the text's first blank.
#[inline(always)]
fn is_first_blank(text: &[u8], at: usize) -> bool
    requires { at < length text.now }
    ensures { IsTrue result → position_or_len (λ octet. octet == 32) text.now ≡ at }
{
    if text[at] != b' ' {
        return false;
    }
    for index in 0..at {
        if text[index] == b' ' {
            return false;
        }
    }
    true
}

/// The same as `split_field` of the text of an event, whose word mostly has four octets or seven:
/// these are looked at without a loop.
pub fn split_event_word(text: &[u8]) -> Option<(&[u8], &[u8])>
    ensures { MatchOption result (¬ (HasBlank text.now)) (λ f. HasBlank text.now × (f.0.now ≡ before_blank text.now) × (f.1.now ≡ after_blank text.now)) }
{
    if text.len() > 7 {
        if is_first_blank(text, 4) {
            return Some((&text[..4], &text[5..]));
        }
        if is_first_blank(text, 7) {
            return Some((&text[..7], &text[8..]));
        }
    }
    split_field(text)
}
