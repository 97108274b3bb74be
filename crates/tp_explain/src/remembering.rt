//! The bytes that were read out of a source.
use std::alloc::Global;
use tp_outside::{Failed, Source};

/// A source, and the bytes that were read out of it, up to a number and at most one reading more. Where memory is wanting
/// for them there are none.
#[derive(Drop)]
pub struct Remembering<S: Source> {
    source: S,
    most: usize,
    text: Vec<u8>,
}

impl<S: Source> Remembering<S> {
    ghost use Rattle.std.specs.Prelude.{◌≡◌};

    /// Nothing was read yet; up to so many bytes are remembered.
    pub fn new(alloc: Global, source: S, most: usize) -> Remembering<S>
        ensures { result.source ≡ source }
    {
        Remembering {
            source,
            most,
            text: Vec::new(alloc),
        }
    }

    /// The source.
    pub fn source(&self) -> &S
        ensures { result.now ≡ self.now.source }
    {
        &self.source
    }

    /// What was read.
    pub fn text(&self) -> &[u8] {
        self.text.as_slice()
    }

    fn note(&mut self, bytes: &[u8])
        ensures { self.new.source ≡ self.old.source }
    {
        if self.text.len() >= self.most {
            return;
        }
        if self.text.extend_from_slice(bytes).is_err() {
            self.text.clear();
            self.most = 0;
        }
    }
}

impl<S: Source> Source for Remembering<S> {
    ghost left = { λ r. S.left r.source };

    ghost fault_count = { λ r. S.fault_count r.source };

    fn read(&mut self, buf: &mut [u8]) -> Result<usize, Failed> {
        let count = self.source.read(buf)?;
        self.note(&buf[..count]);
        Ok(count)
    }

    fn faults(&self) -> u64 {
        self.source.faults()
    }
}
