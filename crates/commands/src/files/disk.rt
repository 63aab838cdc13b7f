//! The files of the machine that runs the program, and what removes them.

ghost use Rattle.std.specs.Prelude.{◌≡◌, ⊤, [], false, ℕ, IfOk, List};
ghost use Rattle.commands.specs.runs.Calls.{unwritten};

use crate::files::FileSystem;
use sabr_model::{Device, Failed, Write};
use std::fs;
use std::fs::File;
use std::rt::Files;

/// What removes files by their paths.
pub trait Remover {
    /// What is true of a path if a call removed the file there.
    ghost removed: { List ℕ → Type 0 };

    /// Removes the file at a path.
    fn remove(&self, path: &str) -> Result<(), Failed>
        ensures { IfOk result (λ _. removed path.now) };
}

/// The remover of the machine, by the runtime.
#[derive(Drop)]
pub struct DiskRemover<'r, R: Files> {
    rt: &'r R,
}

impl<'r, R: Files> DiskRemover<'r, R> {
    /// The remover by this runtime.
    pub fn new(rt: &'r R) -> DiskRemover<'r, R> {
        DiskRemover { rt }
    }
}

impl<'r, R: Files> Remover for DiskRemover<'r, R> {
    ghost removed = { λ _. ⊤ };

    fn remove(&self, path: &str) -> Result<(), Failed> {
        match fs::remove_file(self.rt, path) {
            Ok(()) => Ok(()),
            Err(_) => Err(Failed),
        }
    }
}

/// A file that was made: its path, and its writer once that was given back.
#[derive(Drop)]
struct Made<'w, F> {
    path: &'w str,
    writer: Option<Device<F>>,
}

/// The files of the machine, by the runtime and a remover. It makes one file at most, and remembers its path until the
/// remover has removed the file.
#[derive(Drop)]
pub struct Disk<'r, 'w, R: Files, M: Remover> {
    rt: &'r R,
    remover: M,
    made: Option<Made<'w, R::File>>,
}

impl<'r, 'w, R: Files> Disk<'r, 'w, R, DiskRemover<'r, R>> {
    /// The files by this runtime. None was made.
    pub fn new(rt: &'r R) -> Disk<'r, 'w, R, DiskRemover<'r, R>>
        ensures { ⟦<Disk<'r, 'w, R, DiskRemover<'r, R>> as FileSystem<'w>>⟧.left result ≡ [] }
    {
        Disk {
            rt,
            remover: DiskRemover::new(rt),
            made: None,
        }
    }
}

impl<'r, 'w, R: Files, M: Remover> FileSystem<'w> for Disk<'r, 'w, R, M> {
    ghost use Rattle.std.specs.Prelude.{◌∷◌, Option, None, Some};
    ghost use Rattle.std.specs.Option.{option_map_or};

    type File = Device<R::File>;

    type NewFile = Device<R::File>;

    ghost rules = { record {
      opened = λ _ x. (x.given ≡ []) × (x.ended ≡ false) × (x.failures ≡ 0);
      unopened = λ _. ⊤;
      made = λ _ x. (x.taken ≡ []) × (x.failures ≡ 0);
      unmade = λ _. ⊤;
      unremoved = λ _. ⊤;
      removed = M.removed;
    } };

    ghost left = { λ disk. option_map_or (λ made. (made.path.now, option_map_or ⟦<Device<R::File> as Write>⟧.output made.writer unwritten) ∷ []) disk.made [] };

    fn open(&self, path: &'w str) -> Result<Device<R::File>, Failed> {
        match fs::open(self.rt, path) {
            Ok(file) => Ok(Device::new(file)),
            Err(_) => Err(Failed),
        }
    }

    fn make(&mut self, path: &'w str) -> Result<Device<R::File>, Failed> {
        if self.made.is_some() {
            return Err(Failed);
        }
        match File::create_new(self.rt, path) {
            Ok(file) => {
                self.made = Some(Made { path, writer: None });
                Ok(Device::new(file))
            }
            Err(_) => Err(Failed),
        }
    }

    fn keep(&mut self, file: Device<R::File>) {
        if let Some(made) = &mut self.made {
            made.writer = Some(file);
        }
    }

    fn remove(&mut self, file: Device<R::File>) {
        let Some(made) = self.made.take() else {
            return;
        };
        let path = made.path;
        if self.remover.remove(path).is_err() {
            let writer = Some(file);
            self.made = Some(Made { path, writer });
        }
    }
}
