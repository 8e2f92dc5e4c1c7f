ghost use Rattle.std.specs.Prelude.{◌≡◌, bytes_eq, find};
ghost use Rattle.script_text.specs.Verbs.{spelling_of};

/// The first word of a command. See drvctl(8).
#[derive(Clone, Copy)]
pub enum Verb {
    Open,
    Close,
    Io,
    Detach,
    Rescan,
    List,
    Tree,
    Suspend,
    Resume,
    ResumeTree,
    Plug,
    Unplug,
}

/// All words with which commands begin.
pub const VERBS: [Verb; 12] = [
    Verb::Open,
    Verb::Close,
    Verb::Io,
    Verb::Detach,
    Verb::Rescan,
    Verb::List,
    Verb::Tree,
    Verb::Suspend,
    Verb::Resume,
    Verb::ResumeTree,
    Verb::Plug,
    Verb::Unplug,
];

fn spelling(verb: Verb) -> &'static [u8]
    ensures { result.now ≡ spelling_of verb }
{
    match verb {
        Verb::Open => b"open",
        Verb::Close => b"close",
        Verb::Io => b"io",
        Verb::Detach => b"detach",
        Verb::Rescan => b"rescan",
        Verb::List => b"list",
        Verb::Tree => b"tree",
        Verb::Suspend => b"suspend",
        Verb::Resume => b"resume",
        Verb::ResumeTree => b"resumetree",
        Verb::Plug => b"plug",
        Verb::Unplug => b"unplug",
    }
}

fn spells(word: &[u8], verb: Verb) -> bool
    ensures { result ≡ bytes_eq (spelling_of verb) word.now }
{
    spelling(verb) == word
}

/// The verb that a word spells.
pub fn verb_of(word: &[u8]) -> Option<Verb>
    ensures { result ≡ find (λ verb. bytes_eq (spelling_of verb) word.now) VERBS }
{
    VERBS.iter().copied().find(|&verb| spells(word, verb))
}
