//! The arguments that commands of several crates take.

use crate::tables::{Argument, FLAG, OPTION, Rule, Takes};

/// The option of every command with which people read what is wrong.
pub const DETAILS: Argument = Argument {
    name: "details",
    help: "Writes what is wrong after a code, as to a terminal",
    ..FLAG
};

/// The argument that names the snapshot.
pub const RESTORE: Argument = Argument {
    name: "restore",
    takes: Takes::Text("FILE"),
    help: "The snapshot that the speaker is restored from",
    ..OPTION
};

/// The argument that names the file in which the snapshot is kept.
pub const KEEP: Argument = Argument {
    name: "keep",
    takes: Takes::Text("FILE"),
    help: "The file of the snapshot: the speaker is restored from it, and keeps it",
    ..OPTION
};

/// The argument of the first start with such a file.
pub const NEW: Argument = Argument {
    name: "new",
    rules: &[Rule::Requires("keep")],
    help: "With --keep, begins with a new speaker; FILE must not be there",
    ..FLAG
};
