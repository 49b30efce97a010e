//! What holds of each image text. The functions do nothing: their clauses are the laws.

ghost use Rattle.std.specs.Prelude.{◌≡◌, ◌⊎◌, List as Items, ℕ, Some, None};
ghost use Rattle.text_lines.specs.Answers.{IsReader};
ghost use Rattle.image_defs.specs.declared.file.ImageFile.{ImageFile};
ghost use Rattle.image_file.specs.{declared.refusal.ImageNo.ImageNo, Files.image_text, Ranges.IsInRanges, Ranges.Reads, Reading.first_fault};

/// Each text reads as one file at most, and has no fault beside it. So files in range with one text are
/// one file, and the text of a file in range has no fault.
pub fn reads_as_one()
    ensures one { (text : Items ℕ) (file other : ImageFile) → Reads text file → Reads text other → file ≡ other }
    ensures no_fault { (text : Items ℕ) (file : ImageFile) → Reads text file → first_fault text ≡ None }
    ensures written { (file : ImageFile) → IsInRanges file → Reads (image_text file) file }
{}

/// Each text, of any length, reads as a file or has a first fault. With the law above, the texts have a
/// reader.
pub fn reads_or_faults()
    ensures some { (text : Items ℕ) → ((file : ImageFile) × Reads text file) ⊎ ((why : ImageNo) × (first_fault text ≡ Some why)) }
    ensures reader { IsReader Reads first_fault }
{}
