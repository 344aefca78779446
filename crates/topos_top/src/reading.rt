//! Reading and parsing the files that only this program reads. A file that is not accepted ends the
//! run with its reply.

ghost use Rattle.run_core.specs.inner.Reads.{MayRead};
ghost use Rattle.run_core.specs.Shelf.{shelf_change};
ghost use Rattle.run_core.specs.inner.Views.{items_view, rules_outcome};
ghost use Rattle.topos_top.specs.FileFormats.{events, document, edited, edits};
ghost use Rattle.topos_top.specs.inner.Reads.{MayReadRules};
ghost use Rattle.topos_top.specs.inner.Views.{session_view, edits_view};

use crate::kind::Kind;
use crate::text_fault::list_reason;
use desc_core::migrate;
use edge_io::Shelf;
use edit_core::{Edit, EditsFault, Session};
use pkt_core::{Event, EventFault};
use run_core::{Answer, Dialect, Rules, RulesFault, take};
use std::alloc::Global;

/// Reads the rules of a file.
pub fn read_rules<'a, H: Shelf>(
    alloc: Global,
    dialect: Dialect,
    name: &'a str,
    shelf: &mut H,
) -> Result<Rules, Answer<'a>>
    ensures { MayReadRules dialect name.now (shelf_change H.Shelf shelf.old shelf.new) (rules_outcome result) }
{
    let bytes = take(alloc, &Kind::Rules(dialect), name, shelf)?;
    match dialect.read(alloc, &bytes) {
        Ok(rules) => Ok(rules),
        Err(RulesFault::Refused(line, reason)) => Err(Answer::bad_text(b"rules", line, reason)),
        Err(RulesFault::Memory) => Err(Answer::no_memory()),
    }
}

/// Reads the events of a file.
pub fn read_events<'a, H: Shelf>(
    alloc: Global,
    name: &'a str,
    shelf: &mut H,
) -> Result<Vec<Event>, Answer<'a>>
    ensures { MayRead events name.now (shelf_change H.Shelf shelf.old shelf.new) (items_view result) }
{
    let bytes = take(alloc, &Kind::Events, name, shelf)?;
    match pkt_core::read_events(alloc, &bytes) {
        Ok(events) => Ok(events),
        Err(EventFault::Refused { line, why }) => Err(Answer::bad_text(
            b"events",
            line,
            list_reason(why),
        )),
        Err(EventFault::Memory) => Err(Answer::no_memory()),
    }
}

/// Reads the description of a file, migrated to version 2.
pub fn read_document<'a, H: Shelf>(
    alloc: Global,
    name: &'a str,
    shelf: &mut H,
) -> Result<Vec<u8>, Answer<'a>>
    ensures { MayRead document name.now (shelf_change H.Shelf shelf.old shelf.new) (items_view result) }
{
    let bytes = take(alloc, &Kind::Document, name, shelf)?;
    Ok(migrate(alloc, &bytes)?)
}

/// Reads the description of a file, to be edited.
pub fn read_session<'a, H: Shelf>(
    alloc: Global,
    name: &'a str,
    shelf: &mut H,
) -> Result<Session, Answer<'a>>
    ensures { MayRead edited name.now (shelf_change H.Shelf shelf.old shelf.new) (session_view result) }
{
    let bytes = take(alloc, &Kind::Edited, name, shelf)?;
    Ok(Session::start(alloc, &bytes)?)
}

/// Reads the edits of a file.
pub fn read_edits<'a, H: Shelf>(
    alloc: Global,
    name: &'a str,
    shelf: &mut H,
) -> Result<Vec<Edit>, Answer<'a>>
    ensures { MayRead edits name.now (shelf_change H.Shelf shelf.old shelf.new) (edits_view result) }
{
    let bytes = take(alloc, &Kind::Edits, name, shelf)?;
    match edit_core::read_edits(alloc, &bytes) {
        Ok(edits) => Ok(edits),
        Err(EditsFault::Refused { line, why }) => Err(Answer::bad_text(
            b"edits",
            line,
            list_reason(why),
        )),
        Err(EditsFault::Memory) => Err(Answer::no_memory()),
    }
}
