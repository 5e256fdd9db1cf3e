ghost use Rattle.std.specs.Prelude.{◌≡◌, None, is_some, false, []};

use crate::{Files, OpenAnswer, ReadAnswer, Text};
use std::io::{ErrorKind, Read};
use std::{fs, rt};

/// The files of the operating system, opened through std. It tells no contents.
#[derive(Drop)]
pub struct RealFiles<R: rt::Files + Drop> {
    runtime: R,
    file: Option<R::File>,
    faults: u64,
}

impl<R: rt::Files + Drop> RealFiles<R> {
    /// The files that this runtime opens, of which none is open yet.
    pub fn new(runtime: R) -> RealFiles<R>
        ensures faults { ⟦<RealFiles<R> as Files>⟧.faults result ≡ 0 }
        ensures closed { ⟦<RealFiles<R> as Files>⟧.is_open result ≡ false }
        ensures untold { ⟦<RealFiles<R> as Files>⟧.contents result ≡ None }
    {
        RealFiles {
            runtime,
            file: None,
            faults: 0,
        }
    }
}

impl<R: rt::Files + Drop> Files for RealFiles<R> {
    ghost contents = { λ _. None };

    ghost is_open = { λ files. is_some files.file };

    ghost place = { λ _. [] };

    ghost faults = { λ files. files.faults };

    /// A name that isn't UTF-8 is that of no file.
    fn open(&mut self, name: &Text) -> OpenAnswer {
        self.file = None;
        let Ok(path) = str::from_utf8(name.as_slice()) else {
            return OpenAnswer::Absent;
        };
        match fs::open(&self.runtime, path) {
            Ok(file) => {
                self.file = Some(file);
                OpenAnswer::Opened
            }
            Err(error) if error.kind() == ErrorKind::NotFound => OpenAnswer::Absent,
            Err(_) => {
                self.faults = self.faults.saturating_add(1);
                OpenAnswer::Failed
            }
        }
    }

    fn read(&mut self, buf: &mut [u8]) -> ReadAnswer {
        let Some(file) = &mut self.file else {
            unreachable!()
        };
        match file.read(buf) {
            Ok(count) => ReadAnswer::Got(count),
            Err(_) => {
                self.faults = self.faults.saturating_add(1);
                ReadAnswer::Failed
            }
        }
    }
}
