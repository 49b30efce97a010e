//! Laws of lines: functions that do nothing, whose clauses hold of all lines.

ghost use Rattle.std.specs.Prelude.{◌≡◌, ℕ, true, false, List, Ok, All};
ghost use Rattle.text_lines.specs.Bytes.{is_line_feed};
ghost use Rattle.image_lines.specs.{declared.line.Line.Line, Forms.line_read, Ranges.IsInRange, Words.line_bytes};

/// A law: each line in its ranges is read back from the bytes that spell it, and what is read as one in
/// its ranges is, and was spelled so. So each line has one spelling. It does nothing.
pub fn lines_read_back()
    ensures again { (line : Line) → IsInRange line → line_read (line_bytes line) ≡ Ok (line, true) }
    ensures only { (bytes : List ℕ) (line : Line) → line_read bytes ≡ Ok (line, true) → (bytes ≡ line_bytes line) × IsInRange line }
{}

/// A law: no line has a LF in it. It does nothing.
pub fn lines_lack_line_feeds()
    ensures { (line : Line) → IsInRange line → All (λ byte. is_line_feed byte ≡ false) (line_bytes line) }
{}
