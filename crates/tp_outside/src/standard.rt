//! The trusted edge: standard input as a source and standard output as a sink. They tell no bytes, so no clause here says
//! what the streams hold.
use crate::{Cause, Failed, Sink, Source};
use std::io::{self, Input, Print, Printer, Read, Write};

/// Standard input.
#[derive(Drop)]
pub struct StdSource<R: Input> {
    reader: R::Reader,
    faults: u64,
    cause: Option<Cause>,
}

impl<R: Input> StdSource<R> {
    pub fn new(rt: &R) -> StdSource<R> {
        StdSource {
            reader: rt.reader(),
            faults: 0,
            cause: None,
        }
    }

    /// Why the last call failed that did.
    pub fn cause(&self) -> Option<Cause> {
        self.cause
    }
}

impl<R: Input> Source for StdSource<R> {
    ghost use Rattle.std.specs.Prelude.{None};

    ghost left = { λ _. None };

    ghost fault_count = { λ s. s.faults };

    fn read(&mut self, buf: &mut [u8]) -> Result<usize, Failed> {
        match self.reader.read(buf) {
            Ok(n) => Ok(n),
            Err(error) => {
                self.faults = self.faults.saturating_add(1);
                self.cause = Some(Cause::new("read", error));
                Err(Failed)
            }
        }
    }

    fn faults(&self) -> u64 {
        self.faults
    }
}

/// Standard output.
#[derive(Drop)]
pub struct StdSink<'a, P: Print> {
    printer: Printer<'a, P>,
    faults: u64,
    cause: Option<Cause>,
}

impl<'a, P: Print> StdSink<'a, P> {
    pub fn new(rt: &'a P) -> StdSink<'a, P> {
        StdSink {
            printer: io::writer(rt),
            faults: 0,
            cause: None,
        }
    }

    /// Why the last call failed that did.
    pub fn cause(&self) -> Option<Cause> {
        self.cause
    }
}

impl<P: Print> StdSink<'_, P> {
    ghost use Rattle.std.specs.Prelude.{◌≤◌};
    ghost use Rattle.tp_outside.specs.Faults.{HasRisen};

    fn fail(&mut self, error: io::Error) -> Failed
        ensures kept { self.old.faults ≤ self.new.faults }
        ensures risen { HasRisen (self.old.faults) (self.new.faults) }
    {
        self.faults = self.faults.saturating_add(1);
        self.cause = Some(Cause::new("write", error));
        Failed
    }
}

impl<P: Print> Sink for StdSink<'_, P> {
    ghost use Rattle.std.specs.Prelude.{None};

    ghost written = { λ _. None };

    ghost fault_count = { λ s. s.faults };

    fn write(&mut self, piece: &[u8]) -> Result<usize, Failed> {
        match self.printer.write(piece) {
            Ok(n) if n > 0 || piece.is_empty() => Ok(n),
            Ok(_) => Err(self.fail(io::Error::from(io::ErrorKind::WriteZero))),
            Err(error) => Err(self.fail(error)),
        }
    }

    fn faults(&self) -> u64 {
        self.faults
    }
}
