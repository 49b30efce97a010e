//! The commands as what help can be asked of.

ghost use Rattle.std.specs.Prelude.{◌≡◌, map};
ghost use Rattle.cmd_words.specs.Topics.{options_of, topic_of, topics, word_of};

use crate::options::{
    COMPILE, COVER, EXEC, FAULT, HELP, LARGE, ORDER, PACK, PLAN, REFER, RUN, SHOW,
};

/// A command, by its word alone.
#[derive(Clone, Copy)]
pub enum Topic {
    Run,
    Refer,
    Order,
    Plan,
    Show,
    Large,
    Compile,
    Exec,
    Pack,
    Fault,
    Cover,
    Help,
}

/// All commands. A new one gets its place here.
static TOPICS: [Topic; 12] = [
    Topic::Run,
    Topic::Refer,
    Topic::Order,
    Topic::Plan,
    Topic::Show,
    Topic::Large,
    Topic::Compile,
    Topic::Exec,
    Topic::Pack,
    Topic::Fault,
    Topic::Cover,
    Topic::Help,
];

/// All commands, each once.
pub fn all_topics() -> &'static [Topic]
    ensures { result.now ≡ topics }
{
    TOPICS.as_slice()
}

impl Topic {
    /// The word that a call of the command begins with.
    pub fn word(&self) -> &'static str
        ensures { result.now ≡ word_of self.now }
    {
        match self {
            Topic::Run => "run",
            Topic::Refer => "refer",
            Topic::Order => "order",
            Topic::Plan => "plan",
            Topic::Show => "show",
            Topic::Large => "large",
            Topic::Compile => "compile",
            Topic::Exec => "exec",
            Topic::Pack => "pack",
            Topic::Fault => "fault",
            Topic::Cover => "cover",
            Topic::Help => "help",
        }
    }

    /// The names of the command's options: the list that `read_words` goes by.
    pub fn options(&self) -> &'static [&'static str]
        ensures { map (λ text. text.now) result.now ≡ options_of self.now }
    {
        match self {
            Topic::Run => RUN.as_slice(),
            Topic::Refer => REFER.as_slice(),
            Topic::Order => ORDER.as_slice(),
            Topic::Plan => PLAN.as_slice(),
            Topic::Show => SHOW.as_slice(),
            Topic::Large => LARGE.as_slice(),
            Topic::Compile => COMPILE.as_slice(),
            Topic::Exec => EXEC.as_slice(),
            Topic::Pack => PACK.as_slice(),
            Topic::Fault => FAULT.as_slice(),
            Topic::Cover => COVER.as_slice(),
            Topic::Help => HELP.as_slice(),
        }
    }
}

/// The command of a word.
pub fn topic_of(word: &[u8]) -> Option<Topic>
    ensures { result ≡ topic_of word.now }
{
    if word == b"run".as_slice() {
        Some(Topic::Run)
    } else if word == b"refer".as_slice() {
        Some(Topic::Refer)
    } else if word == b"order".as_slice() {
        Some(Topic::Order)
    } else if word == b"plan".as_slice() {
        Some(Topic::Plan)
    } else if word == b"show".as_slice() {
        Some(Topic::Show)
    } else if word == b"large".as_slice() {
        Some(Topic::Large)
    } else if word == b"compile".as_slice() {
        Some(Topic::Compile)
    } else if word == b"exec".as_slice() {
        Some(Topic::Exec)
    } else if word == b"pack".as_slice() {
        Some(Topic::Pack)
    } else if word == b"fault".as_slice() {
        Some(Topic::Fault)
    } else if word == b"cover".as_slice() {
        Some(Topic::Cover)
    } else if word == b"help".as_slice() {
        Some(Topic::Help)
    } else {
        None
    }
}
