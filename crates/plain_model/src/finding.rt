//! Look-ups in the lists of a session.
ghost use Rattle.std.specs.Prelude.{◌≡◌, ◌+◌, ◌<◌};
ghost use Rattle.history_model.specs.State.{stream_in, ignores_in, is_handle, file_in, is_open_on, closed, lowest_free};

use super::keeping::{Choice, Opened};

/// The stream that an actor's updates belong to.
pub(crate) fn stream_in(choices: &[Choice], actor: u8) -> u8
    ensures { result ≡ stream_in choices.now actor }
{
    for choice in choices {
        if choice.actor == actor {
            return choice.stream;
        }
    }
    0
}

/// Whether fsync of an actor is ignored.
pub(crate) fn ignores_in(choices: &[Choice], actor: u8) -> bool
    ensures { result ≡ ignores_in choices.now actor }
{
    for choice in choices {
        if choice.actor == actor {
            return choice.ignore;
        }
    }
    false
}

impl Opened {
    /// Whether it is that handle of that actor.
    pub(crate) fn is_handle(&self, actor: u8, number: u8) -> bool
        ensures { result ≡ is_handle actor number self.now }
    {
        self.actor == actor && self.number == number
    }
}

/// The file of an actor's handle, if it is open.
pub(crate) fn file_in(handles: &[Opened], actor: u8, number: u8) -> Option<u32>
    ensures { result ≡ file_in handles.now actor number }
{
    for opened in handles {
        if opened.is_handle(actor, number) {
            return Some(opened.file);
        }
    }
    None
}

/// Whether a handle of any actor is open on a file.
pub(crate) fn is_open_on(handles: &[Opened], file: u32) -> bool
    ensures { result ≡ is_open_on handles.now file }
{
    for opened in handles {
        if opened.file == file {
            return true;
        }
    }
    false
}

/// Whether a handle is open on a file, that one of an actor left out.
pub(crate) fn is_open_without(handles: &[Opened], actor: u8, number: u8, file: u32) -> bool
    ensures { result ≡ is_open_on (closed handles.now actor number) file }
{
    for opened in handles {
        if !opened.is_handle(actor, number) && opened.file == file {
            return true;
        }
    }
    false
}

/// The lowest of so many handles of an actor, from this one on, that isn't open.
pub(crate) fn lowest_free(handles: &[Opened], actor: u8, from: u8, count: u8) -> Option<u8>
    requires { from + count < 256 }
    ensures { result ≡ lowest_free handles.now actor from count }
{
    let mut number = from;
    let mut left = count;
    while left > 0 {
        if file_in(handles, actor, number).is_none() {
            return Some(number);
        }
        number += 1;
        left -= 1;
    }
    None
}
