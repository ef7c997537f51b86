//! The program `ccfs`: the top call over a file, a script in a file and standard output. It stands on `ccfs_top` and on
//! the calls of std that reach files, arguments and standard output. It promises that each of the three edges counts its
//! faults as its trait says, and that the status of the program is the one that the top call answers.
#![tactic(auto)]

ghost use Rattle.std.specs.Prelude.{◌≡◌, ◌⊎◌, ◌++◌};
ghost use Rattle.std.specs.Process.{exit_status};
ghost use Rattle.fault_counts.specs.Counts.{Rose};
ghost use Rattle.ccfs_cli.specs.Words.{place_or_empty, memory_fault_line};

mod file_disk;
mod file_source;
mod stdout_sink;

use ccfs_base::{Sink, write_all};
use ccfs_top::{Ended, shell};
use file_disk::FileDisk;
use file_source::FileSource;
use std::alloc::AllocError;
use std::env;
use std::io::ErrorKind;
use std::process::ExitCode;
use std::rt::Env;
use stdout_sink::StdoutSink;

/// The words of the command line, the program's name first. Where one of them isn't UTF-8 there are none: no row matches
/// either.
fn words_of<R: Env + Alloc>(rt: &R) -> Result<Vec<String<R::A>, R::A>, AllocError> {
    match env::args(rt) {
        Ok(words) => words.collect(rt.alloc()),
        Err(error) if error.kind() == ErrorKind::InvalidData => Ok(Vec::new(rt.alloc())),
        Err(_) => Err(AllocError),
    }
}

/// The word at a place, or the empty one.
fn word_at(words: &[String], place: usize) -> &str
    ensures { result.now ≡ place_or_empty words.now place }
{
    match words.get(place) {
        Some(word) => word.as_str(),
        None => "",
    }
}

/// The status of the program, by how the top call ended.
fn exit_code<D: Drop>(ended: Ended<D>) -> ExitCode
    ensures { exit_status result ≡ ended.status }
{
    let Ended {
        status,
        batches: _,
        disk: _disk,
    } = ended;
    ExitCode::from(status)
}

/// Writes the line of a want of memory, and answers its status.
fn want_of_memory<K: Sink>(out: &mut K) -> ExitCode
    ensures status { exit_status result ≡ 9 }
    ensures text { K.tells → (K.held out.new ≡ K.held out.old ++ memory_fault_line) ⊎ Rose (K.faults out.old) (K.faults out.new) }
{
    let _written = write_all(out, b"fault: memory\n");
    ExitCode::from(9)
}

fn main(rt: HostRuntime) -> ExitCode {
    let mut out = StdoutSink::new(&rt);
    let Ok(words) = words_of(&rt) else {
        return want_of_memory(&mut out);
    };
    let disk = FileDisk::at(&rt, word_at(&words, 2));
    let mut script = FileSource::at(&rt, word_at(&words, 3));
    exit_code(shell(rt.alloc(), &words, disk, &mut script, &mut out))
}
