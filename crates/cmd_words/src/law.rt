//! What holds of the forms of words. The functions do nothing: their clauses are the laws.

ghost use Rattle.cmd_words.specs.Forms.{HasOneForm, AreFormsAsked, AreFormsInRange, AreFormsOfTopics};

/// Words are of the form of one command at most.
pub fn one_form()
    ensures { HasOneForm }
{}

/// The command that words ask for, as a function of the words, is the one whose form they have. So the
/// function has none exactly where they are of no form.
pub fn forms_are_asked()
    ensures { AreFormsAsked }
{}

/// The numbers of a command whose form words have are in their ranges, and its timing is valid.
pub fn forms_are_in_range()
    ensures { AreFormsInRange }
{}

/// The words of a form begin with the word of their command, and their options are of its list: the one that `help`
/// tells.
pub fn forms_are_of_topics()
    ensures { AreFormsOfTopics }
{}
