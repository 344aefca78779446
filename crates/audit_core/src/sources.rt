//! The sources of an owner whose packets differ, with the rules for only these packets.

ghost use Rattle.std.specs.Prelude.{◌≡◌, ◌∷◌, [], IfOk, IfSome};
ghost use Rattle.std.specs.List.{All};
ghost use Rattle.audit_core.specs.Sides.{Sides};
ghost use Rattle.header_space.specs.Owners.{IsOwned, IsRange};
ghost use Rattle.header_space.specs.Searching.{Improves};
ghost use Rattle.audit_core.specs.inner.Pairs.{AreSources, DiffersSo, HoldsBetween, HoldsOf, IsFoundBetween, IsSender, IsSource, HasRange, SaysWhether, every_address, ranges_in};

use crate::difference::Direction;
use crate::list_end::{Ends, ListEnd};
use crate::part::Part;
use header_space::{AddressRange, Owned, box_between, least_before, least_where};
use host_net::Packet;
use std::alloc::{AllocError, Global};

/// A range of sources, and the two sides for the packets from it.
#[derive(Drop)]
pub(crate) struct Source<'a> {
    pub(crate) range: AddressRange,
    pub(crate) ends: Ends<'a>,
}

/// An owner with the ranges of its addresses from which some packet differs.
#[derive(Drop)]
pub(crate) struct Sender<'a> {
    pub(crate) owner: Option<u16>,
    pub(crate) sources: Vec<Source<'a>>,
}

impl<'a> Part<'a> {
    /// Returns an owner with its ranges from which some packet differs.
    pub(crate) fn sender(&self, alloc: Global, owned: &Owned) -> Result<Sender<'_>, AllocError>
        requires { IsOwned self.now.policy.site.hosts owned.now }
        ensures sender { IfOk result (IsSender self.now) }
        ensures owner { IfOk result (λ sender. sender.owner ≡ owned.now.owner) }
        ensures ranges { IfOk result (λ sender. All HasRange sender.sources.items) }
    {
        let sources = self.sources(alloc, &owned.ranges)?;
        Ok(Sender {
            owner: owned.owner,
            sources,
        })
    }

    fn sources(&self, alloc: Global, ranges: &[AddressRange]) -> Result<Vec<Source<'_>>, AllocError>
        requires { All IsRange ranges.now }
        ensures { IfOk result (λ sources. AreSources self.now ranges.now sources.items) }
    {
        let mut sources = Vec::new(alloc);
        for range in ranges {
            let source = self.source(alloc, *range)?;
            if source.differs(alloc)? {
                sources.push(source)?;
            }
        }
        Ok(sources)
    }

    /// Returns a range with the rules for the packets from it.
    fn source(&self, alloc: Global, range: AddressRange) -> Result<Source<'_>, AllocError>
        requires { IsRange range }
        ensures source { IfOk result (IsSource self.now) }
        ensures range { IfOk result (λ source. source.range ≡ range) }
    {
        let whole = self.ends();
        let ends = match whole.restrict(alloc, &box_between(range, every_address()))? {
            None => whole,
            Some(ends) => ends,
        };
        Ok(Source { range, ends })
    }
}

impl<'a> Source<'a> {
    /// Whether the two sides differ at some packet from the range.
    fn differs(&self, alloc: Global) -> Result<bool, AllocError>
        requires { HasRange self.now }
        ensures { IfOk result (SaysWhether self.now) }
    {
        let question = ListEnd {
            ends: self.ends.by_ref(),
            direction: None,
        };
        let found = least_where(alloc, &question, box_between(self.range, every_address()))?;
        Ok(found.is_some())
    }

    /// Returns the first packet from the range to one of the others that differs in that direction, if it
    /// comes before the one found so far. Otherwise returns the one found so far.
    fn find(
        &self,
        alloc: Global,
        direction: Option<Direction>,
        to: &[AddressRange],
        found: Option<Packet>,
    ) -> Result<Option<Packet>, AllocError>
        requires from { HasRange self.now }
        requires to { All IsRange to.now }
        ensures { IfOk result (Improves (HoldsBetween (HoldsOf self.now.ends direction) (self.now.range ∷ []) to.now) found) }
    {
        let question = ListEnd {
            ends: self.ends.by_ref(),
            direction,
        };
        let mut first = found;
        for range in to {
            first = least_before(alloc, &question, box_between(self.range, *range), first)?;
        }
        Ok(first)
    }
}

impl<'a> Sender<'a> {
    /// Returns the first packet from the owner to one of the ranges that differs in that direction, if there
    /// is one.
    pub(crate) fn find(
        &self,
        alloc: Global,
        direction: Option<Direction>,
        to: &[AddressRange],
    ) -> Result<Option<Packet>, AllocError>
        requires from { All HasRange self.now.sources.items }
        requires to { All IsRange to.now }
        ensures { IfOk result (λ found. (sides : Sides) → All (IsSource sides) self.now.sources.items →
            IsFoundBetween (DiffersSo sides direction) (ranges_in self.now.sources.items) to.now found) }
    {
        let mut found = None;
        for source in &self.sources {
            found = source.find(alloc, direction, to, found)?;
        }
        Ok(found)
    }
}

/// Returns the range of all addresses.
fn every_address() -> AddressRange
    ensures { result ≡ every_address }
{
    AddressRange {
        first: 0,
        last: u32::MAX,
    }
}
