//! The two files of a desk in memory, which fail, and which may be older when they are opened again.

use brk_cli_jobs::DeskFiles;
use brk_money::Fault;
use brk_store::Store;
use brk_tests_files::machine::{
    CACHED_PAGES, Held, MachineCrash, close_database, files_after_crash, files_failing_at_crash,
    open_database, options_with_cached_pages,
};
use sqlite::{Alter, Connection, FileStore, Files};
use sqlite_disk::{Fuse, Memory};
use std::alloc::Global;
use std::cell::Cell;

// The number of frames of the log after which it is copied into the database file, so that this file
// is written within the day, and not only at its end.
const FRAMES_OF_LOG: usize = 20;

type FileConnection = Connection<FileStore<Fuse<Memory>>>;

type FileDesk = Store<FileStore<Fuse<Memory>>>;

/// The two files of a desk in memory: the bytes that they have while they are closed, those that
/// another program puts in their place before they are opened again, if it does, whether one of them
/// has failed, how they fail when they are opened next, and at all later times, and how often they
/// were opened.
#[derive(Drop)]
pub struct FailingFiles {
    alloc: Global,
    held: Cell<Held>,
    older: Cell<Option<Held>>,
    pub has_failed: Cell<bool>,
    next: Cell<MachineCrash>,
    later: MachineCrash,
    pub openings: Cell<u64>,
}

impl FailingFiles {
    /// Returns the files with these bytes, which fail by `stop` when they are opened first, and by
    /// `later` at all later times. If there are bytes `older`, the files have them when they are
    /// opened again.
    pub fn new(
        alloc: Global,
        held: Held,
        older: Option<Held>,
        stop: MachineCrash,
        later: MachineCrash,
    ) -> FailingFiles {
        FailingFiles {
            alloc,
            held: Cell::new(held),
            older: Cell::new(older),
            has_failed: Cell::new(false),
            next: Cell::new(stop),
            later,
            openings: Cell::new(0),
        }
    }

    /// Returns the bytes of the files, which must be closed.
    pub fn into_held(self) -> Held {
        let FailingFiles { held, .. } = self;
        held.into_inner()
    }

    // Stores the bytes that the files have when they are opened next, or none if memory runs out,
    // and whether one of them has failed, or would at its next call.
    fn store_files(&self, files: Files<Fuse<Memory>>) {
        if let Ok((held, has_failed)) = files_after_crash(self.alloc, files, self.later.loses) {
            self.held.set(held);
            self.has_failed.set(has_failed || self.has_failed.get());
        }
    }

    // Returns the bytes that the files have when they are opened.
    fn take_held(&self) -> Held {
        let held = self.held.replace(Held::empty_files(self.alloc));
        if self.openings.get() == 0 {
            return held;
        }
        self.older.replace(None).unwrap_or(held)
    }

    // Adopts the desk in the database of the files. Closes the files and stores their bytes if that
    // fails, and returns the fault.
    fn adopt(&self, conn: FileConnection) -> Result<FileDesk, Fault> {
        match adopt_store(self.alloc, conn) {
            Ok(store) => Ok(store),
            Err((conn, fault)) => {
                self.store_files(close_database(conn));
                Err(fault)
            }
        }
    }
}

fn adopt_store<S: Alter + Drop>(
    alloc: Global,
    conn: Connection<S>,
) -> Result<Store<S>, (Connection<S>, Fault)> {
    Store::adopt(alloc, conn)
}

fn connection_of_store<S: Alter + Drop>(store: Store<S>) -> Connection<S> {
    store.into_conn()
}

impl DeskFiles for FailingFiles {
    type Desk = FileDesk;

    ghost opens_or_creates = { λ _ _. Unit {0} };

    ghost opens = { λ _ _. Unit {0} };

    ghost closes = { λ _ _. Unit {0} };

    fn open_or_create(&self, path: &str) -> Result<Self::Desk, Fault> {
        self.open(path)
    }

    fn open(&self, _path: &str) -> Result<Self::Desk, Fault> {
        let held = self.take_held();
        let stop = self.next.replace(self.later);
        self.openings.set(self.openings.get().saturating_add(1));
        let files = files_failing_at_crash(self.alloc, &held, stop)?;
        let mut options = options_with_cached_pages(CACHED_PAGES);
        options.checkpoint_frames = FRAMES_OF_LOG;
        match open_database(self.alloc, files, options) {
            Ok(conn) => self.adopt(conn),
            Err(files) => {
                self.store_files(files);
                Err(Fault::Store)
            }
        }
    }

    fn close(&self, store: Self::Desk) -> Result<(), Fault> {
        match connection_of_store(store).close_files() {
            Ok(files) => {
                self.store_files(files);
                Ok(())
            }
            Err((_, store)) => {
                self.store_files(store.close());
                Err(Fault::Store)
            }
        }
    }
}
