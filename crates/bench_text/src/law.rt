//! What holds of the forms of netlist lines. The functions do nothing: their clauses are the laws.

ghost use Rattle.std.specs.Prelude.{◌≡◌, ◌≢◌, ◌↔◌, ℕ, List as Items, map, None, Some};
ghost use Rattle.std.specs.List.{flat_map};
ghost use Rattle.bench_text.specs.{Tokens.tokens_of, Forms.Form, Spelling.Piece, Spelling.spelled, Decoding.form_of};
ghost use Rattle.bench_text.specs.Rows.{rows_of, placed_pieces, piece_of};

/// The decoder finds the form that marks and names spell, and no other, and none exactly where they spell none.
pub fn forms_are_spelled()
    ensures form { (pieces : Items Piece) (form : Form) → form_of pieces ≡ Some form ↔ (pieces ≡ spelled form) }
    ensures none { (pieces : Items Piece) → form_of pieces ≡ None ↔ ((form : Form) → pieces ≢ spelled form) }
{}

/// No two forms have one spelling.
pub fn one_form()
    ensures { (form other : Form) → spelled form ≡ spelled other → form ≡ other }
{}

/// The marks and names of the rows of a text are its tokens, each with its line.
pub fn rows_are_tokens()
    ensures { (text : Items ℕ) → flat_map placed_pieces (rows_of text) ≡ map (piece_of text) (tokens_of text) }
{}
