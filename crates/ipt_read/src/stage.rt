//! The position of a line in the file.

/// Before the table line, between the table line and COMMIT, or after COMMIT.
#[derive(Clone, Copy, Debug, PartialEq, Eq)]
pub(crate) enum Stage {
    Front,
    Table,
    After,
}
