ghost use Rattle.std.specs.Prelude.{◌≡◌};
ghost use Rattle.fal_script.specs.Verbs.{verb_word as verb_of};

use crate::words::is_word;

/// The operations of the grammar.
#[derive(Clone, Copy, Debug, PartialEq, Eq)]
pub enum Verb {
    Mkdir,
    Create,
    Stat,
    Access,
    Chmod,
    Chown,
    Truncate,
    Unlink,
    Rmdir,
    Rename,
    List,
    Place,
}

/// The operation that a word names.
#[tactic(auto, unfolding(crate::specs::Verbs::verb_word))]
pub fn verb_word(word: &[u8]) -> Option<Verb>
    ensures { result ≡ verb_of word.now }
{
    if is_word(word, b"mkdir") {
        Some(Verb::Mkdir)
    } else if is_word(word, b"create") {
        Some(Verb::Create)
    } else if is_word(word, b"stat") {
        Some(Verb::Stat)
    } else if is_word(word, b"access") {
        Some(Verb::Access)
    } else if is_word(word, b"chmod") {
        Some(Verb::Chmod)
    } else if is_word(word, b"chown") {
        Some(Verb::Chown)
    } else if is_word(word, b"truncate") {
        Some(Verb::Truncate)
    } else if is_word(word, b"unlink") {
        Some(Verb::Unlink)
    } else if is_word(word, b"rmdir") {
        Some(Verb::Rmdir)
    } else if is_word(word, b"rename") {
        Some(Verb::Rename)
    } else if is_word(word, b"list") {
        Some(Verb::List)
    } else if is_word(word, b"place") {
        Some(Verb::Place)
    } else {
        None
    }
}
