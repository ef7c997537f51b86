//! The names of the commands.
ghost use Rattle.script_text.specs.Grammar.{verb_in, verb_of, verbs};
ghost use Rattle.std.specs.Prelude.{◌≡◌, drop, take};

/// The command that a word names.
#[derive(Clone, Copy, Debug, PartialEq, Eq, Drop)]
pub enum Verb {
    /// `mkdir`
    Mkdir,
    /// `create`
    Create,
    /// `unlink`
    Unlink,
    /// `rmdir`
    Rmdir,
    /// `open`
    OpenFile,
    /// `stat`
    Stat,
    /// `write`
    Write,
    /// `resize`
    Resize,
    /// `read`
    Read,
    /// `rename`
    Rename,
    /// `hwrite`
    HWrite,
    /// `hread`
    HRead,
    /// `close`
    Close,
    /// `fsync`
    Fsync,
    /// `list`
    List,
    /// `setstream`
    SetStream,
    /// `space`
    Space,
    /// `streamsync`
    StreamSync,
    /// `sync`
    Sync,
    /// `flush`
    Flush,
}

/// The command that a word names, or `None` where it names none.
pub fn parse_verb(word: &[u8]) -> Option<Verb>
    ensures { result ≡ verb_of word.now }
{
    if word == b"mkdir".as_slice() {
        Some(Verb::Mkdir)
    } else if word == b"create".as_slice() {
        Some(Verb::Create)
    } else if word == b"unlink".as_slice() {
        Some(Verb::Unlink)
    } else if word == b"rmdir".as_slice() {
        Some(Verb::Rmdir)
    } else if word == b"open".as_slice() {
        Some(Verb::OpenFile)
    } else if word == b"stat".as_slice() {
        Some(Verb::Stat)
    } else {
        file_verb(word)
    }
}

// The command that a word names, where it is none of the first 6.
fn file_verb(word: &[u8]) -> Option<Verb>
    ensures { result ≡ verb_in (drop 6 verbs) word.now }
{
    if word == b"write".as_slice() {
        Some(Verb::Write)
    } else if word == b"resize".as_slice() {
        Some(Verb::Resize)
    } else if word == b"read".as_slice() {
        Some(Verb::Read)
    } else if word == b"rename".as_slice() {
        Some(Verb::Rename)
    } else if word == b"hwrite".as_slice() {
        Some(Verb::HWrite)
    } else if word == b"hread".as_slice() {
        Some(Verb::HRead)
    } else {
        other_verb(word)
    }
}

// The command that a word names, where it is none of the first 12.
fn other_verb(word: &[u8]) -> Option<Verb>
    ensures { result ≡ verb_in (drop 12 verbs) word.now }
{
    if word == b"close".as_slice() {
        Some(Verb::Close)
    } else if word == b"fsync".as_slice() {
        Some(Verb::Fsync)
    } else if word == b"list".as_slice() {
        Some(Verb::List)
    } else if word == b"setstream".as_slice() {
        Some(Verb::SetStream)
    } else if word == b"space".as_slice() {
        Some(Verb::Space)
    } else if word == b"streamsync".as_slice() {
        Some(Verb::StreamSync)
    } else if word == b"sync".as_slice() {
        Some(Verb::Sync)
    } else if word == b"flush".as_slice() {
        Some(Verb::Flush)
    } else {
        None
    }
}
