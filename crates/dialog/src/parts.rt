// What a line says.
use game::Event;

/// What a line tells `follow`.
// kept: no `Option` for an unreadable line, since the reader answers none at the input's end.
#[derive(Clone, Copy)]
pub enum Command {
    /// An event of the run.
    Told(Event),
    /// To end the run.
    End,
    /// Nothing that can be read.
    Unreadable,
}
