//! Reading a whole file of a shelf in chunks, within a limit.
ghost use Rattle.std.specs.Prelude.{◌≡◌, ◌+◌, ◌^◌, ◌≤◌, ◌<◌, ◌↔◌, ◌⊎◌, IsTrue, IfOk, IfSome, IsSomeAnd, OnOk, IsErrOf, length, vec_len};
ghost use Rattle.std.specs.Io.KnownBytes.{IsAtEnd};
ghost use Rattle.std.specs.FinMap.{get};
ghost use Rattle.edge_io.specs.Failures.{ShelfCountsOnlyFailures};
ghost use Rattle.edge_io.specs.Counts.{more, Rose};
ghost use Rattle.edge_io.specs.Observable.{Lacks};
ghost use Rattle.edge_io.specs.inner.Take.{answer_for, outcome_of};

use crate::{Shelf, TakeFault};
use std::alloc::Global;

/// Opens the file of that name and reads it to its end. `limit` is at most 64 MiB. Of a longer file
/// it reads at most one byte more than `limit`.
pub fn take_all<H: Shelf>(
    alloc: Global,
    shelf: &mut H,
    name: &str,
    limit: usize,
) -> Result<Vec<u8>, TakeFault>
    requires { limit ≤ 2 ^ 26 }
    ensures files_unchanged { H.files shelf.new ≡ H.files shelf.old }
    ensures opened_once { H.begins shelf.new ≡ more (H.begins shelf.old) 1 }
    ensures faults_monotone { H.faults shelf.old ≤ H.faults shelf.new }
    ensures most { H.taken shelf.new ≤ limit + 1 }

    // The number of bytes that were read, up to the end of the file.
    ensures count { IfOk result (λ bytes. vec_len bytes ≡ H.taken shelf.new) }
    ensures within { IfOk result (λ bytes. vec_len bytes ≤ limit) }
    ensures at_end { OnOk result (IsTrue (H.begun shelf.new) × IsAtEnd (H.left shelf.new)) }
    ensures whole { IfOk result (λ bytes. IfSome (H.files shelf.old) (λ files.
        get files name.now ≡ Some bytes.items)) }

    // Each error has its cause.
    ensures read { IsErrOf result TakeFault.Read →
        Rose (H.faults shelf.old) (H.faults shelf.new) ⊎ Lacks (H.files shelf.old) name.now }
    ensures too_long { IsErrOf result TakeFault.TooLong ↔ (H.taken shelf.new ≡ limit + 1) }
    ensures longer { IsErrOf result TakeFault.TooLong → IfSome (H.files shelf.old) (λ files.
        IsSomeAnd (get files name.now) (λ bytes. limit < length bytes)) }

    // Only `Read` counts a fault, if faults are counted only for failures, and memory can run out
    // only for an open file.
    ensures no_fault { ShelfCountsOnlyFailures H.Shelf →
        IsErrOf result TakeFault.Read ⊎ (H.faults shelf.new ≡ H.faults shelf.old) }
    ensures memory { IsErrOf result TakeFault.Memory → IsTrue (H.begun shelf.new) }

    // Without a fault, the result is the one that the observable file determines, or memory ran
    // out.
    ensures complete { ¬ Rose (H.faults shelf.old) (H.faults shelf.new) → IfSome (H.files shelf.old) (λ files.
        (outcome_of result ≡ answer_for limit (get files name.now)) ⊎ IsErrOf result TakeFault.Memory) }
{
    if shelf.begin(name).is_err() {
        return Err(TakeFault::Read);
    }
    take_rest(alloc, shelf, limit)
}

/// Reads the open file, of which nothing is read yet, to its end.
fn take_rest<H: Shelf>(alloc: Global, shelf: &mut H, limit: usize) -> Result<Vec<u8>, TakeFault>
    requires small { limit ≤ 2 ^ 26 }
    requires begun { IsTrue (H.begun shelf.old) }
    requires none_read { H.taken shelf.old ≡ 0 }
    ensures files_unchanged { H.files shelf.new ≡ H.files shelf.old }
    ensures opens_unchanged { H.begins shelf.new ≡ H.begins shelf.old }
    ensures faults_monotone { H.faults shelf.old ≤ H.faults shelf.new }
    ensures most { H.taken shelf.new ≤ limit + 1 }
    ensures count { IfOk result (λ bytes. vec_len bytes ≡ H.taken shelf.new) }
    ensures within { IfOk result (λ bytes. vec_len bytes ≤ limit) }
    ensures at_end { OnOk result (IsTrue (H.begun shelf.new) × IsAtEnd (H.left shelf.new)) }
    ensures whole { IfOk result (λ bytes. IfSome (H.left shelf.old) (λ left. left ≡ bytes.items)) }
    ensures read { IsErrOf result TakeFault.Read → Rose (H.faults shelf.old) (H.faults shelf.new) }
    ensures too_long { IsErrOf result TakeFault.TooLong ↔ (H.taken shelf.new ≡ limit + 1) }
    ensures longer { IsErrOf result TakeFault.TooLong → IfSome (H.left shelf.old) (λ left. limit < length left) }
    ensures no_fault { ShelfCountsOnlyFailures H.Shelf →
        IsErrOf result TakeFault.Read ⊎ (H.faults shelf.new ≡ H.faults shelf.old) }
    ensures still_open { IsTrue (H.begun shelf.new) }
{
    let mut bytes = Vec::new(alloc);
    let mut piece = [0; PIECE];
    loop {
        let room = limit - bytes.len();
        let count = match shelf.read(&mut piece[..PIECE.min(room + 1)]) {
            Ok(0) => return Ok(bytes),
            Ok(count) => count,
            Err(_) => return Err(TakeFault::Read),
        };
        if count > room {
            return Err(TakeFault::TooLong);
        }
        if bytes.extend_from_slice(&piece[..count]).is_err() {
            return Err(TakeFault::Memory);
        }
    }
}

/// The greatest number of bytes that one read requests.
const PIECE: usize = 4096;
