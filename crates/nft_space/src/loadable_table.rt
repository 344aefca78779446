//! A table that can be loaded.

ghost use Rattle.std.specs.Prelude.{◌≡◌, Bool, IfNone, IfOk, IfSome};
ghost use Rattle.host_net.specs.declared.packet.Packet.{Packet};
ghost use Rattle.host_net.specs.declared.packet.CtState.{CtState};
ghost use Rattle.host_net.specs.Packet.{IsPacket};
ghost use Rattle.header_space.specs.Boxes.{IsBox, IsIn, Narrows};
ghost use Rattle.nft_rules.specs.Loadable.{IsLoadable};
ghost use Rattle.nft_rules.specs.Semantics.{PassesTable};

use crate::check::is_loadable;
use crate::walk::walk;
use header_space::PacketBox;
use host_net::{CtState, Packet};
use nft_rules::Table;
use std::alloc::{AllocError, Global};
use std::marker::Model;

/// A table that `nft -f` accepts. For each packet in each state it has one verdict.
#[derive(Drop)]
pub struct LoadableTable {
    table: Table,
}

impl Model for LoadableTable {
    ghost use Rattle.nft_rules.specs.Loadable.{IsLoadable};
    ghost use Rattle.nft_rules.specs.declared.table.Table.{Table};

    ghost Value = { Table };

    ghost view = { λ t. t.table };

    ghost invariant = { λ t. IsLoadable t.table };
}

impl LoadableTable {
    /// Returns the table as one that can be loaded.
    pub fn of(table: Table) -> LoadableTable
        requires { IsLoadable table }
        ensures { result ≡ table }
    {
        LoadableTable { table }
    }

    /// Returns the table as one that can be loaded, or `None` if it cannot be loaded.
    pub fn checked(alloc: Global, table: Table) -> Result<Option<LoadableTable>, AllocError>
        ensures some { IfOk result (λ checked. IfSome checked (λ own. own ≡ table)) }
        ensures none { IfOk result (λ checked. IfNone checked (IsLoadable table → ⊥)) }
    {
        if is_loadable(alloc, &table)? {
            Ok(Some(LoadableTable::of(table)))
        } else {
            Ok(None)
        }
    }

    /// Returns the chains and rules.
    pub fn table(&self) -> &Table
        ensures value { result.now ≡ self.now }
        ensures loadable { IsLoadable self.now }
        // A packet passes in a state or does not, and not both.
        ensures one { (state : CtState) (p : Packet) → IsPacket p →
            (passes : Bool) × PassesTable self.now state p passes × ((other : Bool) → PassesTable self.now state p other → other ≡ passes) }
    {
        &self.table
    }

    /// Whether the table forwards a packet in a state.
    pub fn passes(&self, packet: &Packet, state: CtState) -> bool
        ensures { PassesTable self.now state packet.now result }
    {
        let mut single = PacketBox {
            least: *packet,
            greatest: *packet,
        };
        self.passes_within(&mut single, state)
    }

    /// Whether the table forwards the packets of a box in a state. The box is narrowed to packets with
    /// the same result.
    pub fn passes_within(&self, within: &mut PacketBox, state: CtState) -> bool
        requires { IsBox within.old }
        ensures part { Narrows within.old within.new }
        ensures passes { (p : Packet) → IsIn within.new p → PassesTable self.now state p result }
    {
        walk(&self.table, within, state)
    }
}
