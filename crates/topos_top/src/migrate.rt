//! `migrate FILE`: the description in version 2.

ghost use Rattle.std.specs.Prelude.{false};
ghost use Rattle.topos_top.specs.Command.{Migrate};
ghost use Rattle.topos_top.specs.Commands.{plan_of};
ghost use Rattle.run_core.specs.Replies.{IsPossibleReply};
ghost use Rattle.run_core.specs.Shelf.{shelf_change};
ghost use Rattle.run_core.specs.inner.Views.{reply_in};

use crate::reading::read_document;
use edge_io::Shelf;
use run_core::{Answer, Text};
use std::alloc::Global;

/// Returns the reply for the file of that name.
pub fn reply<'a, H: Shelf>(
    alloc: Global,
    file: &'a str,
    shelf: &mut H,
) -> Result<Answer<'a>, Answer<'a>>
    ensures { IsPossibleReply false (plan_of (Migrate file.now))
        (shelf_change H.Shelf shelf.old shelf.new) (reply_in result) }
{
    let text = read_document(alloc, file, shelf)?;
    Ok(Answer::done(Text::Bytes(text)))
}
