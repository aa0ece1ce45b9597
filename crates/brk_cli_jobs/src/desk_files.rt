//! Desks in files, at any place that has files.

ghost use Rattle.std.specs.Prelude.{ℕ, List, Result};
ghost use Rattle.brk_money.specs.declared.fault.Fault.{Fault};

use crate::file::{close_desk, open_desk, open_or_create_desk};
use crate::file_place::{FilePlace, MachinePlace};
use brk_money::Fault;
use brk_store::Store;
use sqlite::{Alter, Connection};
use std::alloc::Global;

/// A place that has desks in files, each at a path.
pub trait DeskFiles {
    /// The store of an open file.
    type Desk;

    /// Holds if opening the desk at the path, created if there is none, may have this result.
    ghost opens_or_creates: { List ℕ → Result Self.Desk Fault → Type 0 };

    /// Holds if opening the desk at the path, which must exist, may have this result.
    ghost opens: { List ℕ → Result Self.Desk Fault → Type 0 };

    /// Holds if closing the store may have this result.
    ghost closes: { Self.Desk → Result (Unit {0}) Fault → Type 0 };

    /// Opens the desk in the file at `path`, and creates it if there is none.
    fn open_or_create(&self, path: &str) -> Result<Self::Desk, Fault>
        ensures { opens_or_creates path.now result };

    /// Opens the desk in the file at `path`, which must exist.
    fn open(&self, path: &str) -> Result<Self::Desk, Fault>
        ensures { opens path.now result };

    fn close(&self, store: Self::Desk) -> Result<(), Fault>
        ensures { closes store result };
}

/// The desks in the files of a place.
#[derive(Clone, Copy)]
pub struct PlaceFiles<P> {
    alloc: Global,
    place: P,
}

/// The desks in the files of the machine.
pub type MachineFiles<'a> = PlaceFiles<MachinePlace<'a>>;

impl<'a> PlaceFiles<MachinePlace<'a>> {
    pub fn new(rt: &'a HostRuntime) -> PlaceFiles<MachinePlace<'a>> {
        PlaceFiles {
            alloc: rt.alloc(),
            place: MachinePlace::new(rt),
        }
    }

    /// The desks in the files of the machine, for a job that changes a desk and creates none.
    pub fn with_desks(rt: &'a HostRuntime) -> PlaceFiles<MachinePlace<'a>> {
        PlaceFiles {
            alloc: rt.alloc(),
            place: MachinePlace::with_desks(rt),
        }
    }
}

impl<S: Alter, P: FilePlace<Open = Connection<S>>> DeskFiles for PlaceFiles<P> {
    ghost use Rattle.std.specs.Prelude.{IfOk};
    ghost use Rattle.brk_cli_jobs.specs.Opened.{RepresentsRowsOfFile};
    ghost use Rattle.brk_cli_jobs.specs.Opening.{ClosePost, OpenOrCreatePost, OpenPost};

    type Desk = Store<S>;

    ghost opens_or_creates = { λ path result. OpenOrCreatePost S.Store P.connects P.disconnects path result
        × IfOk result (λ store. RepresentsRowsOfFile S.Store store) };

    ghost opens = { λ path result. OpenPost S.Store P.finds_blank P.connects P.disconnects path result
        × IfOk result (λ store. RepresentsRowsOfFile S.Store store) };

    ghost closes = { λ store result. ClosePost P.disconnects store result };

    fn open_or_create(&self, path: &str) -> Result<Store<S>, Fault> {
        open_or_create_desk(self.alloc, &self.place, path)
    }

    fn open(&self, path: &str) -> Result<Store<S>, Fault> {
        open_desk(self.alloc, &self.place, path)
    }

    fn close(&self, store: Store<S>) -> Result<(), Fault> {
        close_desk(&self.place, store)
    }
}
