//! The trait of a system of files, and the files that a command line names.

mod disk;

ghost use Rattle.std.specs.Prelude.{◌≡◌, IfErr, IfOk, OnErr, Some, option_map};
ghost use Rattle.clap.specs.Matches.{first_value, found_of};
ghost use Rattle.commands.specs.runs.Calls.{IsUnopened, KeepsIfDone, Makes, FileRules, Keeps, Left, Removes};
ghost use Rattle.commands.specs.words.Values.{path_under, plan_word, session_out_word, session_word};
ghost use Rattle.commands.specs.declared.failure.Failure.TheVariants as failure;

use crate::failure::{Failure, Status};
use crate::words::{PLAN, SESSION, SESSION_OUT};
use clap::ArgMatches;
pub use disk::{Disk, DiskRemover, Remover};
use sabr_model::{Failed, Read, Write};

/// The files of a system.
///
/// What a path names is up to the system. A contract sees at which path a file was opened or made, or couldn't be, and
/// which of the files that were made are left, each with its path and with what its writer shows. So a call that is
/// proved for any system reads each file from its own path, and leaves what it writes at the path that it is given.
pub trait FileSystem<'w> {
    /// A file that was opened, to read it.
    type File: Read + Drop;

    /// A file that was made, to write it.
    type NewFile: Write + Drop;

    /// How the files read and take that are opened or made at a path, and which calls fail there.
    ghost rules: { FileRules };

    /// The files that were made and not removed, the last one first.
    ghost left: { Self → Left };

    /// Opens the file at a path, to read it.
    fn open(&self, path: &'w str) -> Result<Self::File, Failed>
        ensures gives { IfOk result (λ file. rules.opened path.now (Self.File.input file)) }
        ensures fails { IfErr result (λ _. rules.unopened path.now) };

    /// Makes a new file at a path, to write it. A file that exists stays as it is, and refuses the call. The new one
    /// stays when its writer is gone; what was written to it is left once the writer is given back to
    /// [`keep`](FileSystem::keep).
    fn make(&mut self, path: &'w str) -> Result<Self::NewFile, Failed>
        ensures makes { IfOk result (λ file. Makes rules path.now (Self.NewFile.output file) (left self.old) (left self.new)) }
        ensures fails { IfErr result (λ _. rules.unmade path.now) }
        ensures stays { OnErr result (left self.new ≡ left self.old) };

    /// Keeps the file that was made last, whose writer this is, with all that it took.
    fn keep(&mut self, file: Self::NewFile)
        ensures { Keeps (Self.NewFile.output file) (left self.old) (left self.new) };

    /// Removes the file that was made last, whose writer this is. If that fails, the file stays, with all that it took.
    fn remove(&mut self, file: Self::NewFile)
        ensures { Removes rules (Self.NewFile.output file) (left self.old) (left self.new) };
}

/// The path that a word gives. Empty if it gives none.
fn path_under<'w>(words: &ArgMatches<'w>, word: &str) -> &'w str
    ensures { result.now ≡ path_under (found_of words.now) word.now }
{
    words.get_str(word).unwrap_or("")
}

/// Opens the file that a word of the command line gives.
///
/// # Errors
///
/// `refusal` if it can't be opened.
pub fn open_file<'w, D: FileSystem<'w>>(
    files: &D,
    words: &ArgMatches<'w>,
    word: &str,
    refusal: Failure,
) -> Result<D::File, Failure>
    ensures opened { IfOk result (λ file. D.rules.opened (path_under (found_of words.now) word.now) (D.File.input file)) }
    ensures refused { IfErr result (λ f. (f ≡ refusal) × IsUnopened D.rules (found_of words.now) word.now) }
{
    match files.open(path_under(words, word)) {
        Ok(file) => Ok(file),
        Err(_) => Err(refusal),
    }
}

/// Opens the plan, as [`open_file`].
pub fn open_plan<'w, D: FileSystem<'w>>(
    files: &D,
    words: &ArgMatches<'w>,
) -> Result<D::File, Failure>
    ensures opened { IfOk result (λ file. D.rules.opened (path_under (found_of words.now) plan_word) (D.File.input file)) }
    ensures refused { IfErr result (λ f. (f ≡ failure.CannotOpenPlan) × IsUnopened D.rules (found_of words.now) plan_word) }
{
    open_file(files, words, PLAN.name, Failure::CannotOpenPlan)
}

/// Opens the old session, as [`open_file`].
pub fn open_session<'w, D: FileSystem<'w>>(
    files: &D,
    words: &ArgMatches<'w>,
) -> Result<D::File, Failure>
    ensures opened { IfOk result (λ file. D.rules.opened (path_under (found_of words.now) session_word) (D.File.input file)) }
    ensures refused { IfErr result (λ f. (f ≡ failure.CannotOpenSession) × IsUnopened D.rules (found_of words.now) session_word) }
{
    open_file(files, words, SESSION.name, Failure::CannotOpenSession)
}

/// The path of the file for the new session. `None` if no session is written.
pub fn session_out<'w>(words: &ArgMatches<'w>) -> Option<&'w str>
    ensures { option_map (λ path. path.now) result ≡ first_value (found_of words.now) session_out_word }
{
    words.get_str(SESSION_OUT.name)
}

/// Makes the file of a new session. A file that exists stays as it is.
///
/// # Errors
///
/// [`Failure::CannotMakeSession`] if it can't be made.
pub fn make_session<'w, D: FileSystem<'w>>(
    files: &mut D,
    path: &'w str,
) -> Result<D::NewFile, Failure>
    ensures made { IfOk result (λ file. Makes D.rules path.now (D.NewFile.output file) (D.left files.old) (D.left files.new)) }
    ensures refused { IfErr result (λ f. (f ≡ failure.CannotMakeSession) × D.rules.unmade path.now) }
    ensures not_made { OnErr result (D.left files.new ≡ D.left files.old) }
{
    match files.make(path) {
        Ok(file) => Ok(file),
        Err(_) => Err(Failure::CannotMakeSession),
    }
}

/// Keeps the file of a new session if the run that wrote it is done, and else removes it. If that fails, it stays.
pub fn keep_if_done<'w, D: FileSystem<'w>>(files: &mut D, file: D::NewFile, status: Status)
    ensures { KeepsIfDone D.rules status (D.NewFile.output file) (D.left files.old) (D.left files.new) }
{
    match status {
        Status::Done => files.keep(file),
        _ => files.remove(file),
    }
}
