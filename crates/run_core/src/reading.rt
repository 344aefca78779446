//! Reading a file. A file that is not accepted ends the run with its reply.

ghost use Rattle.run_core.specs.FileFormats.{description};
ghost use Rattle.run_core.specs.inner.Reads.{MayTake, MayRead};
ghost use Rattle.run_core.specs.Shelf.{shelf_change};
ghost use Rattle.run_core.specs.inner.Views.{outcome_view, items_view};

use crate::answer::Answer;
use crate::format::{DescriptionFile, Format};
use crate::status::Status;
use crate::text::Text;
use desc_core::{Description, describe};
use edge_io::{Shelf, TakeFault, take_all};
use std::alloc::Global;

/// Reads the network that a file describes.
pub fn read_description<'a, H: Shelf>(
    alloc: Global,
    name: &'a str,
    shelf: &mut H,
) -> Result<Description, Answer<'a>>
    ensures { MayRead description name.now
        (shelf_change H.Shelf shelf.old shelf.new) (outcome_view result) }
{
    let bytes = take(alloc, &DescriptionFile, name, shelf)?;
    Ok(describe(alloc, &bytes)?)
}

/// Reads the bytes of a file of this format.
pub fn take<'a, K: Format, H: Shelf>(
    alloc: Global,
    format: &K,
    name: &'a str,
    shelf: &mut H,
) -> Result<Vec<u8>, Answer<'a>>
    ensures { MayTake (K.format_of format.now) name.now (shelf_change H.Shelf shelf.old shelf.new) (items_view result) }
{
    match take_all(alloc, shelf, name, format.most()) {
        Ok(bytes) => Ok(bytes),
        Err(TakeFault::Read) => Err(Answer::error(Status::ReadFault, Text::CannotRead(name))),
        Err(TakeFault::TooLong) => Err(format.too_long()),
        Err(TakeFault::Memory) => Err(Answer::no_memory()),
    }
}
