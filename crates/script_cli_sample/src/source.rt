ghost use Rattle.std.specs.Prelude.{◌≡◌, ◌<◌, ◌++◌, Some, length, min, take};
ghost use Rattle.std.specs.List.{concat};
ghost use Rattle.std.specs.Io.{ReadsAtMost};
ghost use Rattle.std.specs.Io.KnownBytes.{ReadConsumes};
ghost use Rattle.prima_io.specs.Causes.{HasCause};
ghost use Rattle.prima_io.specs.Memory.{sure_left};
ghost use Rattle.script_cli_sample.specs.Source.{left_of};
ghost use Rattle.script_cli_sample.specs.Statements.{sample_script};

use crate::script::SampleScript;
use prima_base::{Failed, NoMemory};
use prima_io::{Source, SureSource};
use std::alloc::Global;

/// A source that hands out a sample script. It makes one line at a time, and fails only where it
/// finds no memory for the next one. It tells its bytes.
#[derive(Drop)]
pub struct SampleSource {
    script: SampleScript,
    // What is left of the line before those that are left of the script.
    line: SureSource,
    faults: u64,
    alloc: Global,
}

impl SampleSource {
    ghost use Rattle.script_cli_sample.specs.Source.{faults_of};

    /// A source of the script of this size, which has not failed.
    pub fn new(alloc: Global, size: u32) -> SampleSource
        ensures left { left_of result ≡ sample_script size }
        ensures faults { faults_of result ≡ 0 }
    {
        SampleSource {
            script: SampleScript::new(size),
            line: SureSource::new(Vec::new(alloc)),
            faults: 0,
            alloc,
        }
    }
}

// Moves what there is room for, and says how many bytes.
fn moved(line: &mut SureSource, buf: &mut [u8]) -> usize
    requires { 0 < length buf.old }
    ensures count { result ≡ min (length buf.old) (length (sure_left line.old)) }
    ensures moved { sure_left line.old ≡ take result buf.new ++ sure_left line.new }
    ensures len { length buf.new ≡ length buf.old }
{
    match line.take(buf) {
        Ok(count) => count,
        // It never fails.
        Err(Failed) => 0,
    }
}

impl Source for SampleSource {
    ghost use Rattle.script_cli_sample.specs.Source.{faults_of};

    ghost left = { λ s. Some (left_of s) };

    ghost faults = { λ s. faults_of s };

    fn take(&mut self, buf: &mut [u8]) -> Result<usize, Failed>
        requires { 0 < length buf.old }
        ensures bound { ReadsAtMost result buf.new }
        ensures bytes { ReadConsumes (Some (left_of self.old)) (Some (left_of self.new)) result
            buf.new }
        ensures cause { HasCause (faults_of self.old) (faults_of self.new) result }
    {
        let count = moved(&mut self.line, buf);
        if count > 0 {
            return Ok(count);
        }
        match self.script.next(self.alloc) {
            Ok(Some(line)) => {
                self.line = SureSource::new(line);
                Ok(moved(&mut self.line, buf))
            }
            Ok(None) => Ok(0),
            Err(NoMemory) => {
                self.faults = self.faults.saturating_add(1);
                Err(Failed)
            }
        }
    }
}
