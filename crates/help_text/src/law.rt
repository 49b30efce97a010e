//! What holds of the texts. The functions do nothing: their clauses are the laws.

ghost use Rattle.std.specs.{Prelude.◌≡◌, Prelude.true, List.flat_map};
ghost use Rattle.cmd_words.specs.{declared.topic.Topic.Topic, Topics.options_of, Topics.topics};
ghost use Rattle.help_text.specs.Texts.{about, fits, overview, says_all, IsPartOf};
ghost use Rattle.help_text.specs.Forms.{form_of, names_in};

/// The options that stand in the form of a command are those of the list that the reader of words goes by, in their
/// order. The form stands in both texts, which have no options but those of their forms. Something is said of each, and
/// the text of one command fits a screen.
pub fn forms_are_told()
    ensures options { (topic : Topic) → names_in (form_of topic) ≡ options_of topic }
    ensures those_of_one { (topic : Topic) → names_in (about topic) ≡ options_of topic }
    ensures those_of_all { names_in overview ≡ flat_map options_of topics }
    ensures said { (topic : Topic) → says_all topic ≡ true }
    ensures one { (topic : Topic) → IsPartOf (form_of topic) (about topic) }
    ensures all { (topic : Topic) → IsPartOf (form_of topic) overview }
    ensures size { (topic : Topic) → fits (about topic) ≡ true }
{}
