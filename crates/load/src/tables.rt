// The tables of a sheet.
ghost use Rattle.std.specs.Prelude.{◌≤◌, length};
ghost use Rattle.automaton.specs.Follows.{Whole};

use entries::{Arrow, Move, PositionEntry, Rule, Start};

/// What a sheet says: the entries of each section in a list of their own, and the start line.
#[derive(Drop)]
pub struct Tables {
    pub positions: Vec<PositionEntry>,
    pub moves: Vec<Move>,
    pub states: Vec<bool>,
    pub arrows: Vec<Arrow>,
    pub rules: Vec<Rule>,
    pub start: Start,
    ghost whole: { Whole states.items arrows.items },
    ghost few: { length rules.items ≤ 5 },
}
