//! The fields of a line. One that is missing is empty, which no word is.

/// The word after the first word of this name.
pub(crate) fn field<'l>(line: &'l str, name: &str) -> &'l str {
    let mut is_next = false;
    for word in line.split_ascii_whitespace() {
        if is_next {
            return word;
        }
        is_next = word == name;
    }
    ""
}

/// The word with this number, from 0 on.
pub(crate) fn word(line: &str, number: usize) -> &str {
    match line.split_ascii_whitespace().nth(number) {
        Some(word) => word,
        None => "",
    }
}

/// Whether the line is one of this kind: `add KIND ..`.
pub(crate) fn is_of(line: &str, kind: &str) -> bool {
    word(line, 0) == "add" && word(line, 1) == kind
}

/// The name of the interface with this number: that of the line `add interface NAME` that so many
/// others come before.
pub(crate) fn interface_name<'l>(answer: &'l str, number: &str) -> &'l str {
    let Ok(number) = number.parse::<usize>() else {
        return "?";
    };
    let mut place = 0usize;
    for line in answer.lines() {
        if is_of(line, "interface") {
            if place == number {
                return word(line, 2);
            }
            place = place.saturating_add(1);
        }
    }
    "?"
}
