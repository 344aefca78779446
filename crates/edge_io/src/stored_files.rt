//! The files of a shelf in memory; names are unique.
ghost use Rattle.std.specs.Prelude.{◌≡◌, IfSome, IsSomeAnd, IfNone, OnOk, OnErr, slice_get};
ghost use Rattle.std.specs.List.{position};
ghost use Rattle.std.specs.FinMap.{get, insert};
ghost use Rattle.edge_io.specs.inner.StoredFiles.{is_named, files_in};

use std::alloc::{AllocError, Global};

#[derive(Drop)]
pub(crate) struct StoredFile {
    pub(crate) name: String,
    pub(crate) bytes: Vec<u8>,
}

/// Returns the index of the file of that name. Its bytes are those of the map under the name.
pub(crate) fn place_of(stored: &[StoredFile], name: &str) -> Option<usize>
    ensures found { IfSome result (λ place. IsSomeAnd (slice_get stored.now place) (λ file.
        get (files_in stored.now) name.now ≡ Some file.bytes.items)) }
    ensures missing { IfNone result (get (files_in stored.now) name.now ≡ None) }
{
    position_of(stored, name)
}

fn position_of(stored: &[StoredFile], name: &str) -> Option<usize>
    ensures { result ≡ position (is_named name.now) stored.now }
{
    stored.iter().position(|file| name == file.name.as_str())
}

/// Stores the bytes under that name, and replaces existing ones.
pub(crate) fn put_file(
    alloc: Global,
    stored: &mut Vec<StoredFile>,
    name: &str,
    bytes: &[u8],
) -> Result<(), AllocError>
    ensures ok { OnOk result
        (files_in stored.new.items ≡ insert (files_in stored.old.items) name.now bytes.now) }
    ensures err { OnErr result (stored.new.items ≡ stored.old.items) }
{
    let file = StoredFile {
        name: name.to_owned(alloc)?,
        bytes: bytes.to_vec(alloc)?,
    };
    match position_of(stored, name) {
        Some(place) => stored[place] = file,
        None => stored.push(file)?,
    }
    Ok(())
}
