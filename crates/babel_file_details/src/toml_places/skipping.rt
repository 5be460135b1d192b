//! Values of a TOML text that are skipped.

use std::alloc::Global;
use toml_parser::text::skip_blank;
use toml_parser::{quoted, starts_string, unquoted};

/// What follows the value with which the text begins.
pub(crate) fn skip_value(alloc: Global, text: &str) -> Option<&str> {
    if text.starts_with('[') || text.starts_with('{') {
        skip_brackets(alloc, text)
    } else if starts_string(text) {
        skip_text(alloc, text)
    } else {
        match unquoted(alloc, text) {
            Ok((_value, rest)) => Some(rest),
            Err(_) => None,
        }
    }
}

/// What follows the list or the table in braces with which the text begins.
fn skip_brackets(alloc: Global, text: &str) -> Option<&str> {
    let mut depth = 0usize;
    let mut rest = text;
    for _ in 0..text.len() {
        let (after, change) = skip_part(alloc, skip_blank(rest, true))?;
        rest = after;
        depth = match change {
            Change::Opened => depth.saturating_add(1),
            Change::Closed => depth.saturating_sub(1),
            Change::None => depth,
        };
        if depth == 0 {
            return Some(rest);
        }
    }
    None
}

/// What a part of a list or a table does to the depth of brackets.
#[derive(Clone, Copy)]
enum Change {
    Opened,
    Closed,
    None,
}

/// What follows a text, a bracket, or another character.
fn skip_part(alloc: Global, text: &str) -> Option<(&str, Change)> {
    if starts_string(text) {
        let rest = skip_text(alloc, text)?;
        return Some((rest, Change::None));
    }
    let letter = text.chars().next()?;
    let rest = text.strip_prefix(letter)?;
    let change = match letter {
        '[' | '{' => Change::Opened,
        ']' | '}' => Change::Closed,
        _ => Change::None,
    };
    Some((rest, change))
}

/// What follows the text in quotation marks.
fn skip_text(alloc: Global, text: &str) -> Option<&str> {
    if !starts_string(text) {
        return None;
    }
    match quoted(alloc, text) {
        Ok((_value, rest)) => Some(rest),
        Err(_) => None,
    }
}
