// The words of events and states.
// kept: an event's move is printed elsewhere in its line, so this word is no Display of the event, and a state's word is that of this crate's lines alone.
ghost use Rattle.std.specs.Prelude.{◌≡◌, MatchOption};
ghost use Rattle.dialog.specs.Replies.{event_name, phase_name};

use game::{Event, Phase};

// The word of an event.
pub(crate) fn event_word(event: Event) -> &'static str
    ensures { result.now ≡ event_name event }
{
    match event {
        Event::Go => "go",
        Event::There => "there",
        Event::Hand(_) => "hand",
    }
}

// The word of a state.
pub(crate) fn phase_word(phase: Phase) -> &'static str
    ensures { result.now ≡ phase_name phase }
{
    match phase {
        Phase::ArmTurn => "arm",
        Phase::Moving => "moving",
        Phase::PersonTurn => "person",
        Phase::Ended => "ended",
    }
}
