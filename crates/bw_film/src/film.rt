//! Films, and how they are taken.

ghost use Rattle.std.specs.Prelude.{◌≡◌, [], OnOk, OnErr, IfOk};
ghost use Rattle.std.specs.String.{string_bytes};
ghost use Rattle.bw_film.specs.Choices.{one_more};
ghost use Rattle.bw_film.specs.Films.{AddsAFrame, AreDrawn, moments_of};

use crate::choice::Choice;
use crate::crew::Standing;
use crate::frame::Frame;
use crate::telling::Telling;
use bw_delta::NoMemory;
use bw_draw::{Drawing, Picture};
use bw_table::Table;
use std::alloc::{AllocError, Global};

/// The most moments that are drawn.
pub const MOST_FRAMES: usize = 200;

/// The moments of a table that were chosen, in their order, the first [`MOST_FRAMES`] of them.
#[derive(Debug, Drop)]
pub struct Film {
    pub choice: Choice,
    /// The number of moments that there were, drawn or not.
    pub moments: u64,
    pub frames: Vec<Frame>,
    /// The row or the line of the input that is done.
    pub row: String,
    /// What each worker does, in the order of their numbers. It is empty if that isn't shown.
    pub crew: Vec<Standing>,
    pub ghost drawn: { AreDrawn choice moments frames.items },
}

impl Film {
    /// Returns a film without a moment, of workers who do this, or of no workers if none are shown.
    pub(crate) fn new(alloc: Global, choice: Choice, crew: Vec<Standing>) -> Film
        ensures choice { result.choice ≡ choice }
        ensures moments { result.moments ≡ 0 }
        ensures crew { result.crew.items ≡ crew.items }
        ensures frames { result.frames.items ≡ [] }
    {
        Film {
            choice,
            moments: 0,
            frames: Vec::new(alloc),
            row: String::new(alloc),
            crew,
        }
    }

    /// Adds the moment at which the table is like this, and draws it if it is chosen.
    #[tactic(auto, using(crate::proofs::Drawn::draws_one, crate::proofs::Drawn::draws_none))]
    pub(crate) fn add(
        &mut self,
        alloc: Global,
        table: &Table<Global>,
        telling: Telling,
    ) -> Result<(), NoMemory>
        ensures choice { self.new.choice ≡ self.old.choice }
        ensures counted { OnOk result (self.new.moments ≡ one_more self.old.moments) }
        ensures row { string_bytes self.new.row ≡ string_bytes self.old.row }
        ensures crew { self.new.crew.items ≡ self.old.crew.items }
        ensures frames { AddsAFrame (string_bytes self.old.row) self.old.crew.items
            self.old.frames.items self.new.frames.items }
    {
        let moment = self.moments;
        // If no number is left, a moment after this one gets none.
        let Some(next) = moment.checked_add(1) else {
            return Ok(());
        };
        if self.choice.has(moment) && self.frames.len() < MOST_FRAMES {
            let frame = frame_of(
                alloc,
                table,
                self.choice,
                moment,
                telling,
                &self.row,
                &self.crew,
            )?;
            self.frames.push(frame)?;
        }
        self.moments = next;
        Ok(())
    }

    /// Adds what a comment says to the newest moment, if that is drawn.
    pub(crate) fn note(&mut self, comment: &str) -> Result<(), NoMemory>
        ensures choice { self.new.choice ≡ self.old.choice }
        ensures moments { self.new.moments ≡ self.old.moments }
        ensures crew { self.new.crew.items ≡ self.old.crew.items }
    {
        match self.moments.checked_sub(1) {
            Some(newest) => Ok(note_last(&mut self.frames, newest, comment)?),
            None => Ok(()),
        }
    }
}

/// Adds the comment to the last frame, if it is that of the moment.
#[tactic(auto, using(crate::proofs::Drawn::same_moments))]
fn note_last(frames: &mut Vec<Frame>, moment: u64, comment: &str) -> Result<(), AllocError>
    ensures { moments_of frames.new.items ≡ moments_of frames.old.items }
{
    let Some(last) = frames.len().checked_sub(1) else {
        return Ok(());
    };
    if frames[last].moment == moment {
        add_note(&mut frames[last], comment)?;
    }
    Ok(())
}

/// Adds the comment to what is said of the frame, after a blank.
fn add_note(frame: &mut Frame, comment: &str) -> Result<(), AllocError>
    ensures { frame.new.moment ≡ frame.old.moment }
{
    if !frame.note.is_empty() {
        frame.note.push(' ')?;
    }
    frame.note.push_str(comment)
}

fn frame_of(
    alloc: Global,
    table: &Table<Global>,
    choice: Choice,
    moment: u64,
    telling: Telling,
    row: &str,
    crew: &[Standing],
) -> Result<Frame, NoMemory>
    ensures moment { IfOk result (λ frame. frame.moment ≡ moment) }
    ensures row { IfOk result (λ frame. string_bytes frame.row ≡ row.now) }
    ensures crew { IfOk result (λ frame. frame.crew.items ≡ crew.now) }
{
    let picture = Picture::of(alloc, table)?;
    let drawing = match choice.key {
        None => Drawing::of(alloc, &picture)?,
        Some(key) => Drawing::near(alloc, &picture, key)?,
    };
    Ok(Frame {
        moment,
        told: format!(in alloc; "{telling}")?,
        proved: telling.proved(),
        row: row.to_string(alloc)?,
        note: String::new(alloc),
        crew: Vec::from_slice(alloc, crew)?,
        drawing: drawing.text,
    })
}
