//! The text of the table of a machine, over the definitions only.

ghost use Rattle.std.specs.Prelude.{◌≡◌, List, map};
ghost use Rattle.nft_rules.specs.declared.table.Chain.{Chain};
ghost use Rattle.nft_read.specs.Shape.{chain_shape};
ghost use Rattle.nft_local.specs.HostTable.{CanBeLoaded};
ghost use Rattle.nft_local.specs.MachineText.{machine_text};

/// Lists of chains with the same text have the same contents.
pub fn machine_text_has_one_table()
    ensures { (x y : List Chain) → CanBeLoaded x → CanBeLoaded y → machine_text x ≡ machine_text y → map chain_shape x ≡ map chain_shape y }
{}
