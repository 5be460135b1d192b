//! Files by their names.

/// A file: its name and its octets.
#[derive(Clone, Copy)]
pub struct FileText<'a> {
    /// The name, as the user wrote it.
    pub name: &'a str,
    /// What is in it.
    pub octets: &'a [u8],
}
