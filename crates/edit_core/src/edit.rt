//! An edit of a description.

ghost use Rattle.std.specs.Prelude.{◌≡◌};
ghost use Rattle.edit_core.specs.inner.EditView.{change_view, edit_view};

use toml::Table;

/// The change that an edit makes.
#[derive(Drop)]
pub enum Change {
    /// Lists a flow: the names of its two hosts, followed by its services.
    Add(Vec<String>),
    /// Removes the flow between two hosts, given by their names.
    Remove(String, String),
    /// Makes an invariant, given by its number from 1, assign to a host the attribute that a table
    /// specifies.
    Set(u8, Table),
    /// Removes the assign of an invariant, given by its number from 1, to a host.
    Unset(u8, String),
}

/// A change, and the number of its line in the file. Only the parser creates edits.
#[derive(Drop)]
pub struct Edit {
    line: u32,
    change: Change,
}

impl Edit {
    /// Returns the edit of a line.
    pub(crate) fn on_line(line: u32, change: Change) -> Edit
        ensures { edit_view result ≡ record { line = line; change = change_view change } }
    {
        Edit { line, change }
    }

    /// Returns the line of the file, from 1.
    pub fn line(&self) -> u32
        ensures { result ≡ (edit_view self.now).line }
    {
        self.line
    }

    /// Returns the change.
    pub fn change(&self) -> &Change
        ensures { change_view result.now ≡ (edit_view self.now).change }
    {
        &self.change
    }
}
