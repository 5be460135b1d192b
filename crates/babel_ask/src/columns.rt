//! Which fields are shown.

/// What a column has.
#[derive(Clone, Copy)]
pub(crate) enum ColumnKind {
    /// Texts.
    Text,
    /// Numbers, also in JSON.
    Number,
    /// After how long the thing is given up if nothing more is heard: seconds for people,
    /// centiseconds in JSON.
    Expiry,
}

/// How many columns a table has.
pub(crate) const COLUMNS: usize = 8;

/// A column of a table, and a member of an object.
#[derive(Clone, Copy)]
pub(crate) struct Column {
    /// The head of the column.
    pub(crate) head: &'static str,
    /// The name of the member.
    pub(crate) key: &'static str,
    /// The name of the field in the socket's lines.
    pub(crate) field: &'static str,
    pub(crate) kind: ColumnKind,
}

/// The columns of neighbours.
pub(crate) static NEIGHBOUR_COLUMNS: [Column; COLUMNS] = [
    Column {
        head: "NEIGHBOUR",
        key: "neighbour",
        field: "address",
        kind: ColumnKind::Text,
    },
    Column {
        head: "DEVICE",
        key: "device",
        field: "if",
        kind: ColumnKind::Text,
    },
    Column {
        head: "HELLOS",
        key: "reach",
        field: "reach",
        kind: ColumnKind::Text,
    },
    Column {
        head: "UNICAST",
        key: "ureach",
        field: "ureach",
        kind: ColumnKind::Text,
    },
    Column {
        head: "RXCOST",
        key: "rxcost",
        field: "rxcost",
        kind: ColumnKind::Number,
    },
    Column {
        head: "TXCOST",
        key: "txcost",
        field: "txcost",
        kind: ColumnKind::Number,
    },
    Column {
        head: "COST",
        key: "cost",
        field: "cost",
        kind: ColumnKind::Number,
    },
    Column {
        head: "EXPIRES",
        key: "expires",
        field: "in",
        kind: ColumnKind::Expiry,
    },
];

/// The columns of routes.
pub(crate) static ROUTE_COLUMNS: [Column; COLUMNS] = [
    Column {
        head: "PREFIX",
        key: "prefix",
        field: "prefix",
        kind: ColumnKind::Text,
    },
    Column {
        head: "VIA",
        key: "via",
        field: "via",
        kind: ColumnKind::Text,
    },
    Column {
        head: "DEVICE",
        key: "device",
        field: "if",
        kind: ColumnKind::Text,
    },
    Column {
        head: "METRIC",
        key: "metric",
        field: "metric",
        kind: ColumnKind::Number,
    },
    Column {
        head: "ADVERTISED",
        key: "advertised",
        field: "refmetric",
        kind: ColumnKind::Number,
    },
    Column {
        head: "SELECTED",
        key: "selected",
        field: "installed",
        kind: ColumnKind::Text,
    },
    Column {
        head: "EXPIRES",
        key: "expires",
        field: "in",
        kind: ColumnKind::Expiry,
    },
    Column {
        head: "ROUTER",
        key: "router",
        field: "id",
        kind: ColumnKind::Text,
    },
];
