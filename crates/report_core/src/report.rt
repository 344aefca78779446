//! A printed report.
ghost use Rattle.std.specs.Prelude.{◌≡◌};

use std::marker::Model;

/// A text of complete lines.
#[derive(Drop)]
pub struct Report {
    text: Vec<u8>,
}

impl Model for Report {
    ghost use Rattle.std.specs.Prelude.{ℕ, List};

    ghost Value = { List ℕ };

    ghost view = { λ r. r.text.items };
}

impl Report {
    pub(crate) fn of(text: Vec<u8>) -> Report
        ensures { result ≡ text.items }
    {
        Report { text }
    }

    /// Returns the text of the report.
    pub fn bytes(&self) -> &[u8]
        ensures { result.now ≡ self.now }
    {
        &self.text
    }
}
