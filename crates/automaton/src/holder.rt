// The states and the arrows of an automaton.
use entries::Arrow;

/// A task given by states, of which those marked true accept, and by arrows. State 0 is first.
/// No states at all is no automaton: one state, which accepts.
#[derive(Clone, Copy)]
pub struct Automaton<'a, 'b> {
    pub(crate) states: &'a [bool],
    pub(crate) arrows: &'b [Arrow],
}
