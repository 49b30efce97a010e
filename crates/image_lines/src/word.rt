//! The first tokens of lines.

ghost use Rattle.std.specs.Prelude.{◌≡◌, bytes_eq};
ghost use Rattle.image_lines.specs.Forms.{named};

/// What the first token of a line says that the line is.
#[derive(Clone, Copy)]
pub(crate) enum Word {
    Version,
    Slots,
    Port,
    Table,
    Eval,
    Hold,
    Block,
    Out,
    In,
    Print,
    Send,
    Take,
    End,
}

/// What the token says that its line is.
#[tactic(auto, unfolding(crate::specs::Forms::named))]
pub(crate) fn named(token: &[u8]) -> Option<Word>
    ensures { result ≡ named token.now }
{
    if is_word(token, b"eval") {
        Some(Word::Eval)
    } else if is_word(token, b"take") {
        Some(Word::Take)
    } else if is_word(token, b"send") {
        Some(Word::Send)
    } else if is_word(token, b"hold") {
        Some(Word::Hold)
    } else if is_word(token, b"out") {
        Some(Word::Out)
    } else if is_word(token, b"in") {
        Some(Word::In)
    } else if is_word(token, b"print") {
        Some(Word::Print)
    } else if is_word(token, b"table") {
        Some(Word::Table)
    } else if is_word(token, b"block") {
        Some(Word::Block)
    } else if is_word(token, b"port") {
        Some(Word::Port)
    } else if is_word(token, b"yse-image") {
        Some(Word::Version)
    } else if is_word(token, b"slots") {
        Some(Word::Slots)
    } else if is_word(token, b"end") {
        Some(Word::End)
    } else {
        None
    }
}

/// Whether the token is the word.
pub(crate) fn is_word(token: &[u8], word: &[u8]) -> bool
    ensures { result ≡ bytes_eq token.now word.now }
{
    token == word
}
