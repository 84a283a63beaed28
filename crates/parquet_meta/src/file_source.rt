//! A file of the system as a source. Nothing is known of what the system answers.

ghost use Rattle.std.specs.Prelude.{◌≡◌, ◌≤◌, None, IfOk, OnErr, length};
ghost use Rattle.parquet_meta.specs.Source.{AreCounts, counted, raised};

use crate::source::{Failed, Source};
use std::fs::OpenFile;
use std::io::{Read, Seek, SeekFrom};
use std::marker::Model;
use std::rt::Files;
use std::{fs, io};

/// A file that is opened at the first call.
#[derive(Drop)]
pub struct FileSource<R: Files + Drop> {
    rt: R,
    path: String,
    file: Option<R::File>,
    faults: u64,
    taken: u64,
}

impl<R: Files + Drop> Model for FileSource<R> {
    ghost use Rattle.std.specs.Prelude.{ℕ};
    ghost use Rattle.parquet_meta.specs.Source.{AreCounts};

    ghost Value = { ℕ × ℕ };

    ghost view = { λ s. (s.faults, s.taken) };

    ghost invariant = { λ s. AreCounts s.faults s.taken };
}

/// Reads what stands from the place on.
fn read_from<F: Read + Seek>(file: &mut F, place: u64, out: &mut [u8]) -> io::Result<usize>
    ensures { IfOk result (λ n. n ≤ length out.new) }
{
    file.seek(SeekFrom::Start(place))?;
    file.read(out)
}

impl<R: Files + Drop> FileSource<R> {
    /// The file is opened when it is first asked.
    pub fn new(rt: R, path: String) -> Self
        ensures { result ≡ (0, 0) }
    {
        FileSource {
            rt,
            path,
            file: None,
            faults: 0,
            taken: 0,
        }
    }

    /// Opens the file, where it is not open.
    fn open(&mut self) -> io::Result<()>
        ensures { self.new ≡ self.old }
    {
        if self.file.is_none() {
            self.file = Some(fs::open(&self.rt, self.path.as_str())?);
        }
        Ok(())
    }

    fn try_size(&mut self) -> io::Result<u64>
        ensures { self.new ≡ self.old }
    {
        self.open()?;
        match &self.file {
            Some(file) => Ok(file.metadata()?.len()),
            None => Err(io::Error::from(io::ErrorKind::NotFound)),
        }
    }

    fn try_read_at(&mut self, place: u64, out: &mut [u8]) -> io::Result<usize>
        ensures same { self.new ≡ self.old }
        ensures bound { IfOk result (λ n. n ≤ length out.new) }
    {
        self.open()?;
        match &mut self.file {
            Some(file) => read_from(file, place, out),
            None => Err(io::Error::from(io::ErrorKind::NotFound)),
        }
    }
}

impl<R: Files + Drop> Source for FileSource<R> {
    ghost told = { λ _. None };

    ghost faults = { λ s. s.0 };

    ghost taken = { λ s. s.1 };

    ghost kept = { λ _. tt };

    fn size(&mut self) -> Result<u64, Failed>
        ensures counted { self.new.0 ≡ counted self.old.0 result }
        ensures later { self.old.0 ≤ self.new.0 }
        ensures bounded { AreCounts self.new.0 self.new.1 }
        ensures taken { self.new.1 ≡ self.old.1 }
    {
        let Ok(size) = self.try_size() else {
            self.faults = self.faults.saturating_add(1);
            return Err(Failed);
        };
        let _taken = self.taken;
        Ok(size)
    }

    fn read_at(&mut self, place: u64, out: &mut [u8]) -> Result<usize, Failed>
        ensures at_most { IfOk result (λ n. n ≤ length out.new) }
        ensures counted { self.new.0 ≡ counted self.old.0 result }
        ensures later { self.old.0 ≤ self.new.0 }
        ensures bounded { AreCounts self.new.0 self.new.1 }
        ensures taken { IfOk result (λ n. self.new.1 ≡ raised self.old.1 n) }
        ensures not_taken { OnErr result (self.new.1 ≡ self.old.1) }
    {
        let Ok(count) = self.try_read_at(place, out) else {
            self.faults = self.faults.saturating_add(1);
            return Err(Failed);
        };
        self.taken = self.taken.saturating_add(count as u64);
        Ok(count)
    }
}
