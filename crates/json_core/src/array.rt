//! Appends arrays to a text, one item after the other.

ghost use Rattle.std.specs.Prelude.{◌≡◌, ◌++◌, All, OnOk};
ghost use Rattle.json_core.specs.Json.{array_json, separated};

use crate::values::{push, push_comma};
use std::alloc::AllocError;

/// The writer of the items of an array.
pub trait ItemWriter<T>: Sized {
    ghost use Rattle.std.specs.Prelude.{◌≡◌, ◌++◌, ℕ, List, OnOk};

    /// Which items the writer accepts.
    ghost fits: { Self → T → Type 0 };

    /// The JSON of an item.
    ghost item_json: { Self → T → List ℕ };

    /// Appends an item.
    fn push(&self, text: &mut Vec<u8>, item: &T) -> Result<(), AllocError>
        requires { fits self.now item.now }
        ensures { OnOk result (text.new.items ≡ text.old.items ++ item_json self.now item.now) };
}

/// Appends the items as an array.
pub fn push_array<T, W: ItemWriter<T>>(
    text: &mut Vec<u8>,
    writer: &W,
    items: &[T],
) -> Result<(), AllocError>
    requires { All (W.fits writer.now) items.now }
    ensures { OnOk result (text.new.items ≡ text.old.items ++ array_json (W.item_json writer.now) items.now) }
{
    push(text, b"[")?;
    push_items(text, writer, items)?;
    push(text, b"]")
}

// Appends the items with commas between them.
fn push_items<T, W: ItemWriter<T>>(
    text: &mut Vec<u8>,
    writer: &W,
    items: &[T],
) -> Result<(), AllocError>
    requires { All (W.fits writer.now) items.now }
    ensures { OnOk result (text.new.items ≡ text.old.items ++ separated (W.item_json writer.now) items.now) }
{
    for (place, item) in items.iter().enumerate() {
        push_comma(text, place == 0)?;
        writer.push(text, item)?;
    }
    Ok(())
}
