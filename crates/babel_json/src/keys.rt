//! The key of a file that a sentence is about.

/// The key that the sentence names, if it is about one: `unknown key 'helo' in ..`,
/// `interface 0 has no key 'cost'; ..`, `'cost' must be ..` and `cost = 0 is not in ..`.
pub(crate) fn key_in(sentence: &str) -> Option<&str> {
    if let Some(rest) = sentence.strip_prefix("unknown key '") {
        return quoted(rest);
    }
    if let Some(rest) = sentence.strip_prefix("'") {
        return quoted(rest);
    }
    if let Some((_, rest)) = sentence.split_once(" has no key '") {
        return quoted(rest);
    }
    let (key, _) = sentence.split_once(" = ")?;
    if key.contains(' ') {
        return None;
    }
    Some(key)
}

/// What comes before the next quotation mark.
fn quoted(text: &str) -> Option<&str> {
    let (key, _) = text.split_once('\'')?;
    Some(key)
}
