//! A borrowed source is a source, and a borrowed sink a sink: each call goes to the one borrowed.

use crate::{Failed, Sink, Source};

impl<S: Source> Source for &mut S {
    ghost left = { λ s. S.left s.now };

    ghost faults = { λ s. S.faults s.now };

    fn take(&mut self, buf: &mut [u8]) -> Result<usize, Failed> {
        Source::take(&mut **self, buf)
    }
}

impl<K: Sink> Sink for &mut K {
    ghost written = { λ s. K.written s.now };

    ghost faults = { λ s. K.faults s.now };

    fn put(&mut self, piece: &[u8]) -> Result<usize, Failed> {
        Sink::put(&mut **self, piece)
    }
}
