ghost use Rattle.std.specs.Prelude.{◌≡◌, ◌-◌, ◌^◌, None, Some, true};
ghost use Rattle.std.specs.Option.{option_map};

use crate::shelf::{Opening, Reading, Shelf};
use crate::short_name::ShortName;
use std::alloc::Global;
use std::fs;
use std::fs::Files;
use std::io::{ErrorKind, Read};

/// A file that is open, and its name.
#[derive(Drop)]
struct OpenFile<T> {
    file: T,
    name: ShortName,
}

/// The files of the system, under their paths.
///
/// It tells no texts: what a file holds is not known before it is read. Each error of the system is
/// a fault, but for a file that is not there and for lack of memory at an `open`. The count of
/// faults stops at `u64::MAX`.
#[derive(Drop)]
pub struct FileShelf<'a, F: Files> {
    files: &'a F,
    opened: Option<OpenFile<F::File>>,
    faults: u64,
    last_fault: Option<ShortName>,
}

impl<'a, F: Files> FileShelf<'a, F> {
    /// A shelf with nothing open, and no fault so far.
    pub fn of(files: &'a F) -> FileShelf<'a, F>
        ensures open_name { ⟦<FileShelf<'a, F> as Shelf>⟧.open_name result ≡ None }
        ensures faults { ⟦<FileShelf<'a, F> as Shelf>⟧.faults result ≡ 0 }
        ensures last_fault { ⟦<FileShelf<'a, F> as Shelf>⟧.last_fault result ≡ None }
    {
        FileShelf {
            files,
            opened: None,
            faults: 0,
            last_fault: None,
        }
    }
}

impl<'a, F: Files> Shelf for FileShelf<'a, F> {
    ghost told = { λ _. None };

    ghost left = { λ _. None };

    ghost open_name = { λ s. option_map (λ o. o.name) s.opened };

    ghost faults = { λ s. s.faults };

    ghost last_fault = { λ s. s.last_fault };

    ghost last_count = { Some (2 ^ 64 - 1) };

    ghost takes_memory = { true };

    fn open(&mut self, _alloc: Global, name: &str) -> Opening {
        self.opened = None;
        match fs::open(self.files, name) {
            Ok(file) => {
                let name = ShortName::of(name);
                self.opened = Some(OpenFile { file, name });
                Opening::Opened
            }
            Err(e) => match e.kind() {
                ErrorKind::NotFound => Opening::Absent,
                ErrorKind::OutOfMemory => Opening::NoMemory,
                _ => {
                    self.faults = self.faults.saturating_add(1);
                    self.last_fault = Some(ShortName::of(name));
                    Opening::Failed
                }
            },
        }
    }

    fn read(&mut self, piece: &mut [u8]) -> Reading {
        let Some(mut opened) = self.opened.take() else {
            return Reading::End
        };
        match opened.file.read(piece) {
            Ok(0) => {
                self.opened = Some(opened);
                Reading::End
            }
            Ok(count) => {
                self.opened = Some(opened);
                Reading::Got(count)
            }
            Err(_) => {
                self.faults = self.faults.saturating_add(1);
                self.last_fault = Some(opened.name);
                Reading::Failed
            }
        }
    }
}
