//! The names of the reasons to reject a list of events or of edits, and to refuse an edit.

ghost use Rattle.std.specs.Prelude.{◌≡◌};
ghost use Rattle.run_core.specs.inner.Views.{text_view};
ghost use Rattle.topos_top.specs.TextFault.{list_reason, edit_fault_line};

use edit_core::EditWhy;
use run_core::Text;
use text_core::ListWhy;

/// Returns the name of the reason to reject a list of events or of edits.
pub fn list_reason(why: ListWhy) -> &'static [u8]
    ensures { result.now ≡ list_reason why }
{
    match why {
        ListWhy::TooLong => b"TooLong",
        ListWhy::BadLine => b"BadLine",
        ListWhy::BadValue => b"BadValue",
        ListWhy::TooMany => b"TooMany",
    }
}

/// Returns the line for a refused edit: the number of its line, and the reason.
pub fn refused_edit<'a>(line: u32, why: EditWhy) -> Text<'a>
    ensures { text_view result ≡ edit_fault_line line why }
{
    match why {
        EditWhy::NoPolicy => Text::Fault(b"edits", line, b"NoPolicy"),
        EditWhy::Absent => Text::Fault(b"edits", line, b"Absent"),
        EditWhy::Refused(why) => Text::RefusedLine(b"edits", line, why),
    }
}
