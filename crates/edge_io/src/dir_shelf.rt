//! The files of the operating system as a shelf. Names are paths, and the contents are not
//! observable.
ghost use Rattle.std.specs.Prelude.{◌≡◌, false, None, is_some, refl};
ghost use Rattle.std.specs.Option.{option_and_then};
ghost use Rattle.std.specs.Io.KnownBytes.{ReadConsumes};
ghost use Rattle.edge_io.specs.Failures.{ShelfCountsOnlyFailures};
ghost use Rattle.edge_io.specs.inner.Calls.{CountsFault};

use crate::{Failed, Shelf};
use std::fs;
use std::io::Read;
use std::rt::Files;

/// A shelf over the files that `rt` opens. Each error of the system is a fault.
#[derive(Drop)]
pub struct DirShelf<'a, R: Files> {
    rt: &'a R,
    file: Option<R::File>,
    taken: u64,
    begins: u64,
    faults: u64,
}

impl<'a, R: Files> DirShelf<'a, R> {
    /// Returns a shelf without open file. Relative names start at the working directory.
    pub fn new(rt: &'a R) -> DirShelf<'a, R>
        ensures none_open { ⟦<DirShelf<'a, R> as Shelf>⟧.begun result ≡ false }
        ensures never_opened { ⟦<DirShelf<'a, R> as Shelf>⟧.begins result ≡ 0 }
        ensures no_faults { ⟦<DirShelf<'a, R> as Shelf>⟧.faults result ≡ 0 }
        ensures counts { ShelfCountsOnlyFailures ⟦<DirShelf<'a, R> as Shelf>⟧ }
    {
        DirShelf {
            rt,
            file: None,
            taken: 0,
            begins: 0,
            faults: 0,
        }
    }
}

impl<'a, R: Files> Shelf for DirShelf<'a, R> {
    ghost files = { λ _. None };

    ghost left = { λ _. None };

    ghost begun = { λ s. is_some s.file };

    ghost taken = { λ s. s.taken };

    ghost begins = { λ s. s.begins };

    ghost faults = { λ s. s.faults };

    ghost begin_gives = { λ old _ result new. CountsFault result old.faults new.faults };

    // The bytes that are returned come from the file, if the file's remaining bytes are observable.
    ghost read_gives = { λ old into result new.
        ReadConsumes (option_and_then R.File.remaining old.file) (option_and_then R.File.remaining new.file) result into
        × CountsFault result old.faults new.faults };

    ghost both_observable = { λ _. refl };

    fn begin(&mut self, name: &str) -> Result<(), Failed> {
        self.begins = self.begins.saturating_add(1);
        self.taken = 0;
        self.file = None;
        match fs::open(self.rt, name) {
            Ok(file) => {
                self.file = Some(file);
                Ok(())
            }
            Err(_) => {
                self.faults = self.faults.saturating_add(1);
                Err(Failed)
            }
        }
    }

    fn read(&mut self, into: &mut [u8]) -> Result<usize, Failed> {
        let file = self.file.as_mut().unwrap();
        match file.read(into) {
            Ok(count) => {
                self.taken = self.taken.saturating_add(count as u64);
                Ok(count)
            }
            Err(_) => {
                self.faults = self.faults.saturating_add(1);
                Err(Failed)
            }
        }
    }
}
