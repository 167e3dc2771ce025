//! The shapes of tables, as data.

/// A column: its type, and its name. It has no default, and SQLite compares texts byte by byte.
#[derive(Clone, Copy, Debug)]
pub enum ColumnShape<'a> {
    /// An integer.
    Number(&'a str),
    /// A text.
    Words(&'a str),
    /// An integer or NULL.
    OptionalNumber(&'a str),
    /// A text or NULL.
    OptionalWords(&'a str),
}

/// The key of a table's rows. Positions of columns count from 1.
#[derive(Clone, Copy, Debug)]
pub enum Rows<'a> {
    /// Only the first column, an integer, which is the rowid.
    Numbered,
    /// Several columns. Each row has a lifespan that begins before it ends.
    Versioned {
        /// The positions of the primary key.
        key: &'a [usize],
        /// The position of the column of the start of a lifespan.
        since: usize,
        /// The position of the column of its end.
        until: usize,
    },
}

/// A STRICT table with these columns, this key, and nothing else.
#[derive(Clone, Copy, Debug)]
pub struct TableShape<'a> {
    /// The name of the table.
    pub name: &'a str,
    /// The tree (root) in which SQLite stores its rows: trees are numbered in the order of creation, and a
    /// key of several columns takes one more for its index.
    pub tree: u32,
    /// The columns, in order.
    pub columns: &'a [ColumnShape<'a>],
    /// The key of its rows.
    pub rows: Rows<'a>,
}
