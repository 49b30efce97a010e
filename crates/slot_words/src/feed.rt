//! What the words of sends may hold.

ghost use Rattle.std.specs.Prelude.{◌≡◌};

/// A kind of words: what an image is fed with, and which number a port may send in a turn and slot. The rule of the
/// words is said over this trait, and knows no value.
pub trait Feed<D> {
    ghost use Rattle.std.specs.Prelude.{Bool, ℕ};
    ghost use Rattle.image_defs.specs.declared.image.Image.{Image};
    ghost use Rattle.slot_words.specs.Feeds.{AreFew, TellsTurns};

    // the image may be fed with this
    ghost runs: { Image → D → Type 0 };

    // and has then so many turns
    ghost turns: { Image → D → ℕ };

    // by port, slot and turn: it may send this number
    ghost sent: { Image → D → ℕ → ℕ → ℕ → ℕ → Type 0 };

    // the number is one of this turn
    ghost of_turn: { ℕ → ℕ → Bool };

    // how many banks there may be
    ghost most_banks: { ℕ };

    /// Whether a number that was read is one of this turn.
    fn is_of(number: u64, turn: u64) -> bool
        ensures { result ≡ of_turn number turn };

    ghost few: { AreFew runs turns most_banks };

    ghost tells: { TellsTurns sent of_turn most_banks };
}
