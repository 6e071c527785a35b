//! An opener over the files of the machine.
ghost use Rattle.std.specs.Prelude.{◌≡◌, ◌-◌, ◌^◌, ◌<◌, length, OnOk, OnErr, IfOk, is_ok};
ghost use Rattle.std.specs.Io.{ReadsAtMost};
ghost use Rattle.cal_base.specs.Faults.{HasCause, faults_after};
ghost use Rattle.cal_files.specs.Counts.{openings_after};

use crate::Opener;
use cal_base::{Failed, Source, StdSource};
use std::fs;
use std::fs::Files;
use std::marker::Model;

/// An opener over files of std. It counts a fault at each opening and each read that fails, save
/// where a signal interrupts them, and tells nothing of what names hold. A directory may be opened,
/// and then can't be read.
#[derive(Drop)]
pub struct FileOpener<'a, R: Files> {
    system: &'a R,
    source: Option<StdSource<R::File>>,
    read_faults: u64,
    open_faults: u64,
    openings: u64,
}

impl<'a, R: Files> Model for FileOpener<'a, R> {
    ghost use Rattle.cal_files.specs.Counts.{Counts};

    ghost Value = { Counts };

    ghost view = { λ o. record {
      read_faults = o.read_faults;
      open_faults = o.open_faults;
      openings = o.openings;
    } };
}

impl<'a, R: Files> FileOpener<'a, R> {
    /// An opener of the files of this system, of which none is open.
    pub fn new(system: &'a R) -> Self
        ensures { result ≡ record { read_faults = 0; open_faults = 0; openings = 0 } }
    {
        FileOpener {
            system,
            source: None,
            read_faults: 0,
            open_faults: 0,
            openings: 0,
        }
    }
}

impl<R: Files> Opener for FileOpener<'_, R> {
    ghost use Rattle.std.specs.Prelude.{None};

    ghost left = { λ _. None };

    ghost content = { λ _ _. None };

    ghost read_faults = { λ o. o.read_faults };

    ghost open_faults = { λ o. o.open_faults };

    ghost openings = { λ o. o.openings };

    fn open(&mut self, name: &str) -> Result<(), Failed>
        requires { self.old.openings < 2 ^ 64 - 1 }
        ensures openings { self.new.openings
            ≡ openings_after (is_ok result) self.old.openings }
        ensures cause { HasCause self.old.open_faults self.new.open_faults result }
        ensures reads { self.new.read_faults ≡ self.old.read_faults }

        // It counts a fault exactly where it fails.
        ensures counted { self.new.open_faults
            ≡ faults_after (is_ok result) self.old.open_faults }
    {
        self.source = None;
        let Ok(file) = fs::open(self.system, name) else {
            self.open_faults = self.open_faults.saturating_add(1);
            return Err(Failed);
        };
        self.source = Some(StdSource::new(file));
        self.openings += 1;
        Ok(())
    }

    fn read(&mut self, buf: &mut [u8]) -> Result<usize, Failed>
        requires { 0 < length buf.old }
        ensures bound { ReadsAtMost result buf.new }
        ensures cause { HasCause self.old.read_faults self.new.read_faults result }
        ensures opens { self.new.open_faults ≡ self.old.open_faults }
        ensures openings { self.new.openings ≡ self.old.openings }

        // It counts a fault exactly where it fails.
        ensures counted { self.new.read_faults
            ≡ faults_after (is_ok result) self.old.read_faults }
    {
        let result = match &mut self.source {
            Some(source) => source.read(buf),
            None => Ok(0),
        };
        self.read_faults = self.read_faults.saturating_add(u64::from(result.is_err()));
        result
    }
}
