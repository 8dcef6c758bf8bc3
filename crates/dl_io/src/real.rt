//! The files of the host, and a sink over a writer of the host.
ghost use Rattle.std.specs.Prelude.{◌≡◌, None};

use crate::traits::{Failed, Files, Sink};
use std::fs;
use std::io::{Read, Write};
use std::rt::Files as HostFiles;

/// The files of the host. They tell no content and no sound path, and only the file attached last
/// stays open.
#[derive(Drop)]
pub struct RealFiles<'a, R: HostFiles> {
    rt: &'a R,
    open: Option<R::File>,
    attached: Option<u32>,
    given: u64,
    failed_last: Option<u32>,
    faults: u64,
}

impl<'a, R: HostFiles> RealFiles<'a, R> {
    ghost use Rattle.dl_io.specs.Real.{source_of, untold};

    /// No file is attached at first.
    pub fn new(rt: &'a R) -> RealFiles<'a, R>
        ensures { source_of result ≡ untold }
    {
        RealFiles {
            rt,
            open: None,
            attached: None,
            given: 0,
            failed_last: None,
            faults: 0,
        }
    }
}

impl<'a, R: HostFiles> Files for RealFiles<'a, R> {
    ghost use Rattle.dl_io.specs.Real.{source_of};

    ghost source = { source_of };

    fn attach(&mut self, file: u32, path: &str) -> Result<(), Failed> {
        self.given = 0;
        self.open = None;
        if let Ok(open) = fs::open(self.rt, path) {
            self.open = Some(open);
            self.attached = Some(file);
            return Ok(());
        }
        self.failed_last = Some(file);
        self.faults = self.faults.saturating_add(1);
        Err(Failed)
    }

    fn read(&mut self, file: u32, into: &mut [u8]) -> Result<usize, Failed> {
        if let Some(open) = &mut self.open
            && let Ok(n) = open.read(into)
        {
            self.given = self.given.saturating_add(n as u64);
            return Ok(n);
        }
        self.failed_last = Some(file);
        self.faults = self.faults.saturating_add(1);
        Err(Failed)
    }
}

/// A writer of the host, as standard output, that tells nothing of what it took.
#[derive(Drop)]
pub struct RealSink<W: Write + Drop> {
    to: W,
    faults: u64,
}

impl<W: Write + Drop> RealSink<W> {
    ghost use Rattle.dl_io.specs.Real.{taken_of};

    /// A sink over a writer, with no fault so far.
    pub fn new(to: W) -> RealSink<W>
        ensures { taken_of result ≡ record { written = None; faults = 0 } }
    {
        RealSink { to, faults: 0 }
    }
}

impl<W: Write + Drop> Sink for RealSink<W> {
    ghost use Rattle.dl_io.specs.Real.{taken_of};

    ghost taken = { taken_of };

    fn write(&mut self, bytes: &[u8]) -> Result<usize, Failed> {
        if let Ok(n) = self.to.write(bytes)
            && n > 0
        {
            return Ok(n);
        }
        self.faults = self.faults.saturating_add(1);
        Err(Failed)
    }
}
