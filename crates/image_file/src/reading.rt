//! The reader of image texts.

ghost use Rattle.std.specs.Prelude.{◌≡◌, ◌≤◌, ◌⊎◌, true, None, Ok, Err, IfOk, MatchResult, length};
ghost use Rattle.std.specs.Option.{option_map};
ghost use Rattle.limits.specs.declared.TheConstants.{MAX_TEXT_BYTES};
ghost use Rattle.text_lines.specs.{Answers.Answers, Answers.AnswersAs, Bytes.cut_at};
ghost use Rattle.image_defs.specs.declared.file.ImageFile.{ImageFile as File};
ghost use Rattle.image_lines.specs.Forms.{is_within, line_read};
ghost use Rattle.image_file.specs.Reading.{first_fault, file_read, after_line, followed, at_end};
ghost use Rattle.image_file.specs.{declared.refusal.ImageNo.TheVariants.Memory as NoMemory, Drafts.draft_with, Drafts.has_room, Ranges.Reads};
ghost use Rattle.image_file.specs.declared.draft.Draft.TheVariants as draft;

use crate::adding::draft_with;
use crate::draft::Draft;
use crate::refusal::ImageNo;
use crate::room::has_room;
use crate::standing::may_stand;
use image_defs::ImageFile;
use image_lines::{Line, LineNo, read_line};
use std::alloc::Global;
use text_lines::bytes::split_once;

/// The file that the text reads as, or the text's first fault. Nothing is taken for what a line
/// announces: the lists grow by what is there.
pub fn read_image(alloc: Global, bytes: &[u8]) -> Result<ImageFile, ImageNo>
    requires { length bytes.now ≤ MAX_TEXT_BYTES }

    // What is read is what the text reads as, a refusal is the first fault, or memory ran out.
    ensures answers { Answers NoMemory result (first_fault bytes.now) (Reads bytes.now) }

    // What the text reads as is read, unless memory ran out, and has no fault.
    ensures only { (file : File) → Reads bytes.now file
        → (first_fault bytes.now ≡ None) × MatchResult result (λ read. read ≡ file) (λ e. e ≡ NoMemory) }
{
    read_lines(alloc, bytes)
}

fn read_lines(alloc: Global, bytes: &[u8]) -> Result<ImageFile, ImageNo>
    requires { length bytes.now ≤ MAX_TEXT_BYTES }
    ensures { AnswersAs NoMemory result (file_read bytes.now) }
{
    let mut draft = Draft::Blank;
    let mut rest = bytes;
    let mut number = 1;
    'lines: while let Some((line, behind)) = first_line(rest) {
        draft = follow(alloc, number, draft, line)?;
        rest = behind;
        number += 1;
    }
    finished(number, draft, rest)
}

/// The first line, without its LF, and what stands behind it; `None` where the text has no LF.
fn first_line(text: &[u8]) -> Option<(&[u8], &[u8])>
    ensures { option_map (λ parts. (parts.0.now, parts.1.now)) result ≡ cut_at 10 text.now }
{
    split_once(text, b'\n')
}

/// The text so far with the line of this number.
fn follow(alloc: Global, number: u32, draft: Draft, bytes: &[u8]) -> Result<Draft, ImageNo>
    ensures { AnswersAs NoMemory result (after_line number draft (line_read bytes.now)) }
{
    match line_behind(alloc, number, &draft, bytes) {
        Ok(line) => longer(alloc, draft, line),
        Err(no) => {
            // Drops by hand of drafts and their bodies save 6 s of proof in this crate.
            drop(draft);
            Err(no)
        }
    }
}

/// What the line of this number says, if it may follow the text so far.
fn line_behind(alloc: Global, number: u32, draft: &Draft, bytes: &[u8]) -> Result<Line, ImageNo>
    ensures within { IfOk result (λ said. is_within said ≡ true) }
    ensures room { IfOk result (λ said. has_room draft.now said ≡ true) }
    ensures answers { MatchResult result
        (λ said. after_line number draft.now (line_read bytes.now) ≡ Ok (draft_with draft.now said))
        (λ e. (e ≡ NoMemory) ⊎ (after_line number draft.now (line_read bytes.now) ≡ Err e)) }
{
    match read_line(alloc, bytes) {
        Ok((line, within)) => {
            match may_follow(number, draft, &line, within) {
                Ok(()) => Ok(line),
                Err(no) => {
                    // Drops by hand of lines behind a refusal save 1 s of proof in this crate.
                    drop(line);
                    Err(no)
                }
            }
        }
        Err(LineNo::Syntax) => Err(ImageNo::Syntax { line: number }),
        Err(LineNo::Memory) => Err(ImageNo::Memory),
    }
}

/// Whether the line of this number may follow the text so far, or why not.
fn may_follow(number: u32, draft: &Draft, line: &Line, within: bool) -> Result<(), ImageNo>
    requires { within ≡ true → is_within line.now ≡ true }
    ensures within { IfOk result (λ _. within ≡ true) }
    ensures room { IfOk result (λ _. has_room draft.now line.now ≡ true) }
    ensures answers { MatchResult result
        (λ _. followed number draft.now line.now within ≡ Ok (draft_with draft.now line.now))
        (λ e. followed number draft.now line.now within ≡ Err e) }
{
    if !may_stand(draft, line) {
        return Err(ImageNo::Syntax { line: number });
    }
    if !within || !has_room(draft, line) {
        return Err(ImageNo::Range { line: number });
    }
    Ok(())
}

/// The text so far with a line that may follow it.
fn longer(alloc: Global, draft: Draft, line: Line) -> Result<Draft, ImageNo>
    requires within { is_within line ≡ true }
    requires room { has_room draft line ≡ true }
    ensures { MatchResult result (λ after. after ≡ draft_with draft line) (λ e. e ≡ NoMemory) }
{
    match draft_with(alloc, draft, line) {
        Ok(longer) => Ok(longer),
        Err(_memory) => Err(ImageNo::Memory),
    }
}

/// The file, if the text ends behind its line `end`.
fn finished(number: u32, draft: Draft, rest: &[u8]) -> Result<ImageFile, ImageNo>
    ensures { result ≡ at_end number draft rest.now }
{
    match draft {
        Draft::Ended(file) => ended(number, file, rest),
        other => {
            drop(other);
            Err(ImageNo::Syntax { line: number })
        }
    }
}

fn ended(number: u32, file: ImageFile, rest: &[u8]) -> Result<ImageFile, ImageNo>
    ensures { result ≡ at_end number (draft.Ended file) rest.now }
{
    match rest {
        [] => Ok(file),
        _ => Err(ImageNo::Syntax { line: number }),
    }
}
