//! The position of one host in the hierarchy: the segments of its path, and its trust.

ghost use Rattle.std.specs.Prelude.{◌≡◌, ◌↔◌, IsTrue, IfOk};
ghost use Rattle.tmpl_domains.specs.Domains.{IsPlace, Place, trusted_path};
ghost use Rattle.tmpl_domains.specs.Path.{segments, IsPrefix};
ghost use Rattle.tmpl_domains.specs.inner.DomainView.{segment_bytes};

use std::alloc::{AllocError, Global};
use std::marker::Model;

// A path, split into its segments, and the number of trailing segments that trust removes.
#[derive(Drop)]
pub(crate) struct Domain {
    path: Vec<Vec<u8>>,
    trust: u8,
}

impl Model for Domain {
    ghost use Rattle.tmpl_domains.specs.Domains.{IsPlace, Place};
    ghost use Rattle.tmpl_domains.specs.inner.DomainView.{segment_bytes};

    ghost Value = { Place };

    ghost view = { λ domain. record { path = segment_bytes domain.path.items; trust = domain.trust } };

    ghost invariant = { λ domain. IsPlace (record { path = segment_bytes domain.path.items; trust = domain.trust }) };
}

impl Domain {
    pub(crate) fn new(alloc: Global, path: &[u8], trust: u8) -> Result<Domain, AllocError>
        requires { IsPlace (record { path = segments path.now; trust = trust }) }
        ensures { IfOk result (λ domain. domain ≡ record { path = segments path.now; trust = trust }) }
    {
        let path = cut(alloc, path)?;
        Ok(Domain { path, trust })
    }

    pub(crate) fn copy(&self, alloc: Global) -> Result<Domain, AllocError>
        ensures { IfOk result (λ copy. copy ≡ self.now) }
    {
        let path = copied(alloc, &self.path)?;
        Ok(Domain {
            path,
            trust: self.trust,
        })
    }

    // Whether the receiver is at or below the position to which trust raises this host.
    pub(crate) fn sends_to(&self, receiver: &Domain) -> bool
        ensures { IsTrue result ↔ IsPrefix (trusted_path self.now) receiver.now.path }
    {
        let kept = self.path.len().saturating_sub(self.trust as usize);
        begins_with(&receiver.path, &self.path[..kept])
    }
}

// Returns the segments of a path.
fn cut(alloc: Global, path: &[u8]) -> Result<Vec<Vec<u8>>, AllocError>
    ensures { IfOk result (λ cut. segment_bytes cut.items ≡ segments path.now) }
{
    let mut all = Vec::new(alloc);
    for segment in path.split(|b| *b == b'/') {
        all.push(Vec::from_slice(alloc, segment)?)?;
    }
    Ok(all)
}

fn copied(alloc: Global, path: &[Vec<u8>]) -> Result<Vec<Vec<u8>>, AllocError>
    ensures { IfOk result (λ copy. segment_bytes copy.items ≡ segment_bytes path.now) }
{
    let mut copy = Vec::with_capacity(alloc, path.len())?;
    for segment in path {
        copy.push(Vec::from_slice(alloc, segment)?)?;
    }
    Ok(copy)
}

fn begins_with(path: &[Vec<u8>], front: &[Vec<u8>]) -> bool
    ensures { IsTrue result ↔ IsPrefix (segment_bytes front.now) (segment_bytes path.now) }
{
    path.starts_with(front)
}
