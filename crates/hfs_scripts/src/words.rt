//! The words of a script's lines.
ghost use Rattle.std.specs.Prelude.{◌≡◌, bytes_eq};
ghost use Rattle.std.specs.List.{find};
ghost use Rattle.hfs_scripts.specs.Texts.{word_text};
ghost use Rattle.hfs_scripts.specs.Words.{beside, reading_words, changing_words, word_of, is_for_viewers};

/// The word of a line.
#[derive(Clone, Copy)]
pub(crate) enum Word {
    DirInfo,
    Info,
    Indexed,
    List,
    Read,
    Create,
    MkDir,
    Delete,
    Rename,
    Move,
    SetFInfo,
    SetInfo,
    Lock,
    Unlock,
    NewId,
    DropId,
    Resolve,
    SetEof,
    Write,
}

/// The words of calls that only read.
const READING_WORDS: [Word; 6] = [
    Word::DirInfo,
    Word::Info,
    Word::Indexed,
    Word::List,
    Word::Read,
    Word::Resolve,
];

/// The words of changes.
const CHANGING_WORDS: [Word; 13] = [
    Word::Create,
    Word::MkDir,
    Word::Delete,
    Word::Rename,
    Word::Move,
    Word::SetFInfo,
    Word::SetInfo,
    Word::Lock,
    Word::Unlock,
    Word::NewId,
    Word::DropId,
    Word::SetEof,
    Word::Write,
];

/// The text of a word.
#[tactic(auto, unfolding(crate::specs::Texts::word_text))]
pub(crate) fn word_text(word: Word) -> &'static [u8]
    ensures { result.now ≡ word_text word }
{
    match word {
        Word::DirInfo => b"dirinfo",
        Word::Info => b"info",
        Word::Indexed => b"indexed",
        Word::List => b"list",
        Word::Read => b"read",
        Word::Create => b"create",
        Word::MkDir => b"mkdir",
        Word::Delete => b"delete",
        Word::Rename => b"rename",
        Word::Move => b"move",
        Word::SetFInfo => b"setfinfo",
        Word::SetInfo => b"setinfo",
        Word::Lock => b"lock",
        Word::Unlock => b"unlock",
        Word::NewId => b"newid",
        Word::DropId => b"dropid",
        Word::Resolve => b"resolve",
        Word::SetEof => b"seteof",
        Word::Write => b"write",
    }
}

/// The first of the words that has this text.
fn find_word(words: &[Word], text: &[u8]) -> Option<Word>
    ensures { result ≡ find (λ word. bytes_eq text.now (word_text word)) words.now }
{
    words.iter().copied().find(|word| text == word_text(*word))
}

/// The word of a call that only reads.
fn read_reading_word(text: &[u8]) -> Option<Word>
    ensures { result ≡ beside text.now reading_words }
{
    find_word(&READING_WORDS, text)
}

/// The word of a change.
fn read_changing_word(text: &[u8]) -> Option<Word>
    ensures { result ≡ beside text.now changing_words }
{
    find_word(&CHANGING_WORDS, text)
}

/// The word of a text.
#[tactic(auto, unfolding(crate::specs::Words::word_of))]
pub(crate) fn read_word(text: &[u8]) -> Option<Word>
    ensures { result ≡ word_of text.now }
{
    if let Some(word) = read_reading_word(text) {
        return Some(word);
    }
    read_changing_word(text)
}

/// Whether a viewer's line may have the word.
pub(crate) fn is_for_viewers(word: Word) -> bool
    ensures { result ≡ is_for_viewers word }
{
    match word {
        Word::DirInfo | Word::Info | Word::Indexed | Word::List | Word::Read => true,
        Word::Create
        | Word::MkDir
        | Word::Delete
        | Word::Rename
        | Word::Move
        | Word::SetFInfo
        | Word::SetInfo
        | Word::Lock
        | Word::Unlock
        | Word::NewId
        | Word::DropId
        | Word::Resolve
        | Word::SetEof
        | Word::Write => false,
    }
}
