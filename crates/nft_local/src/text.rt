//! The text of the table of a machine.

ghost use Rattle.std.specs.Prelude.{◌≡◌, [], IfOk};
ghost use Rattle.nft_rules.specs.Loadable.{AreNamed};
ghost use Rattle.nft_local.specs.MachineText.{machine_end, machine_text};

use nft_rules::Table;
use nft_text::text_of;
use std::alloc::{AllocError, Global};

/// The length of the text of a base chain without rules, and of the end of its table.
const END_LENGTH: usize = 79;

/// Returns the text of a machine's table, whose base chain has no rules, and whose chains have names
/// as nft demands.
pub(crate) fn machine_text_of(alloc: Global, table: &Table) -> Result<Vec<u8>, AllocError>
    requires empty { table.now.forward.items ≡ [] }
    requires named { AreNamed table.now.chains.items }
    ensures { IfOk result (λ text. text.items ≡ machine_text table.now.chains.items) }
{
    let mut text = text_of(alloc, table)?;
    text.truncate(text.len() - END_LENGTH);
    text.extend_from_slice(
        b"\tchain input {\n\t\ttype filter hook input priority filter; policy drop;\n\t\tgoto input_own\n\t}\n\n",
    )?;
    text.extend_from_slice(
        b"\tchain forward {\n\t\ttype filter hook forward priority filter; policy drop;\n\t}\n\n",
    )?;
    text.extend_from_slice(
        b"\tchain output {\n\t\ttype filter hook output priority filter; policy drop;\n\t\tgoto output_own\n\t}\n}\n",
    )?;
    Ok(text)
}
