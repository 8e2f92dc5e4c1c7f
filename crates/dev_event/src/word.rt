ghost use Rattle.std.specs.Prelude.{◌≡◌, bytes_eq};
ghost use Rattle.dev_event.specs.Reading.{word_in};
ghost use Rattle.dev_event.specs.Words.{spelling_of};

/// The first word of an act. With `ListAll` and `TreeAll` the colon of the root belongs to the word.
#[derive(Clone, Copy)]
pub enum ActWord {
    Found,
    Scan,
    Interrupts,
    Final,
    End,
    Open,
    Io,
    Done,
    List,
    ListAll,
    Tree,
    TreeAll,
    Names(Named),
    Says(Said),
}

/// The acts that name a device and nothing more.
#[derive(Clone, Copy)]
pub enum Named {
    Drop,
    Free,
    Sleep,
    Wake,
}

/// The acts that name a device or a spot, and have a reply.
#[derive(Clone, Copy)]
pub enum Said {
    Close,
    Detach,
    Rescan,
    Suspend,
    Resume,
    ResumeTree,
    Power,
    Plug,
    Unplug,
}

/// All words with which acts begin.
pub const ACT_WORDS: [ActWord; 25] = [
    ActWord::Found,
    ActWord::Scan,
    ActWord::Interrupts,
    ActWord::Final,
    ActWord::End,
    ActWord::Open,
    ActWord::Io,
    ActWord::Done,
    ActWord::List,
    ActWord::ListAll,
    ActWord::Tree,
    ActWord::TreeAll,
    ActWord::Names(Named::Drop),
    ActWord::Names(Named::Free),
    ActWord::Names(Named::Sleep),
    ActWord::Names(Named::Wake),
    ActWord::Says(Said::Close),
    ActWord::Says(Said::Detach),
    ActWord::Says(Said::Rescan),
    ActWord::Says(Said::Suspend),
    ActWord::Says(Said::Resume),
    ActWord::Says(Said::ResumeTree),
    ActWord::Says(Said::Power),
    ActWord::Says(Said::Plug),
    ActWord::Says(Said::Unplug),
];

fn named_spelling(named: Named) -> &'static [u8]
    ensures { result.now ≡ spelling_of (ActWord.Names named) }
{
    match named {
        Named::Drop => b"drop",
        Named::Free => b"free",
        Named::Sleep => b"sleep",
        Named::Wake => b"wake",
    }
}

fn said_spelling(said: Said) -> &'static [u8]
    ensures { result.now ≡ spelling_of (ActWord.Says said) }
{
    match said {
        Said::Close => b"close",
        Said::Detach => b"detach",
        Said::Rescan => b"rescan",
        Said::Suspend => b"suspend",
        Said::Resume => b"resume",
        Said::ResumeTree => b"resumetree",
        Said::Power => b"power",
        Said::Plug => b"plug",
        Said::Unplug => b"unplug",
    }
}

fn spelling(word: ActWord) -> &'static [u8]
    ensures { result.now ≡ spelling_of word }
{
    match word {
        ActWord::Found => b"found",
        ActWord::Scan => b"scan",
        ActWord::Interrupts => b"interrupts",
        ActWord::Final => b"final",
        ActWord::End => b"end",
        ActWord::Open => b"open",
        ActWord::Io => b"io",
        ActWord::Done => b"done",
        ActWord::List => b"list",
        ActWord::ListAll => b"list:",
        ActWord::Tree => b"tree",
        ActWord::TreeAll => b"tree:",
        ActWord::Names(named) => named_spelling(named),
        ActWord::Says(said) => said_spelling(said),
    }
}

fn spells(text: &[u8], word: ActWord) -> bool
    ensures { result ≡ bytes_eq (spelling_of word) text.now }
{
    spelling(word) == text
}

/// The word that a text is.
pub fn word_in(text: &[u8]) -> Option<ActWord>
    ensures { result ≡ word_in text.now }
{
    ACT_WORDS.iter().copied().find(|&word| spells(text, word))
}
