// The lines that `follow` prints.
ghost use Rattle.std.specs.Prelude.{Some};
ghost use Rattle.dialog.specs.Replies.{progress_text, shown_text, end_text};

use crate::spellings::{event_word, phase_word};
use game::Progress;
use run::Answer;
use session::Shown;
use std::fmt;
use wording::{CostKind, CostText};

// kept: texts by types of their own, since the cost in them is printed by its kind.

/// How far a run has come: position, cost spent, moves and state.
#[derive(Clone, Copy)]
pub struct ProgressText {
    pub kind: CostKind,
    pub progress: Progress<(u32, u32)>,
}

impl fmt::Display for ProgressText {
    ghost output = { λ p. Some (progress_text p.kind p.progress) };

    fn fmt<W: fmt::Write>(&self, f: &mut fmt::Formatter<W>) -> fmt::Result {
        let Progress {
            position,
            spent,
            made,
            phase,
        } = self.progress;
        let spent = CostText {
            kind: self.kind,
            cost: Some(spent),
        };
        write!(f, "{position} {spent} {made} {}", phase_word(phase))
    }
}

/// What a run has shown: that it has begun, or the answer to an event.
#[derive(Clone, Copy)]
pub struct ShownText {
    pub kind: CostKind,
    pub shown: Shown,
}

impl fmt::Display for ShownText {
    ghost output = { λ s. Some (shown_text s.kind s.shown) };

    fn fmt<W: fmt::Write>(&self, f: &mut fmt::Formatter<W>) -> fmt::Result {
        let kind = self.kind;
        match self.shown {
            Shown::Begun(progress) => write!(f, "begin {}", ProgressText { kind, progress }),
            Shown::Answered(note) => {
                let event = event_word(note.event);
                let progress = ProgressText {
                    kind,
                    progress: note.progress,
                };
                match note.answer {
                    Ok(Answer::Begins(m)) => write!(f, "{event} {m} {progress}"),
                    Ok(Answer::Made) => write!(f, "{event} {progress}"),
                    Err(refusal) => refusal.fmt(f),
                }
            }
        }
    }
}

/// A run that was ended.
#[derive(Clone, Copy)]
pub struct EndText {
    pub kind: CostKind,
    pub progress: Progress<(u32, u32)>,
}

impl fmt::Display for EndText {
    ghost output = { λ p. Some (end_text p.kind p.progress) };

    fn fmt<W: fmt::Write>(&self, f: &mut fmt::Formatter<W>) -> fmt::Result {
        let EndText { kind, progress } = *self;
        write!(f, "end {}", ProgressText { kind, progress })
    }
}
