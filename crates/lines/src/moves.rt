// Move lines.
ghost use Rattle.std.specs.Prelude.{◌≡◌, ℕ, ◌≤◌, Bool, reverse, length, Ok};
ghost use Rattle.sheet_format.specs.Cuts.{words};
ghost use Rattle.sheet_format.specs.Fields.{on_ok, read_fields};
ghost use Rattle.sheet_format.specs.Lines.{move_fields, move_of, last_from, count_from, person_pays, move_checks, move_line};

use crate::fields;
use crate::kinds::LineKind;
use board::Turn;
use entries::{Move, Position};
use refusal::Refusal;
use sheet_format::LineFault;
use words::Line;

/// From, to, bruise and energy, between these positions.
#[derive(Clone, Copy)]
pub struct MoveLines<'a> {
    pub positions: &'a [Position],
    ghost few: { length positions.now ≤ 4096 },
}

// The four numbers of a move line of a sheet with so many positions.
fn move_numbers(line: &Line<'_>, positions: u32) -> Result<Move, LineFault>
    ensures { result ≡ on_ok (read_fields 1 (move_fields positions) (words line.now.bytes.now)) (λ row. Ok (move_of row)) }
{
    fields::word_count(line, 4)?;
    let from = fields::number_below(line, 1, positions)?;
    let to = fields::number_below(line, 2, positions)?;
    let bruise = fields::number(line, 3, 0, 1000)?;
    let energy = fields::number(line, 4, 0, 1000000)?;
    Ok(Move {
        from,
        to,
        bruise,
        energy,
    })
}

// Where the last of the moves starts, 0 if there is none.
fn last_start(moves: &[Move]) -> u32
    ensures { result ≡ last_from (reverse moves.now) }
{
    moves.last().map_or(0, |m| m.from)
}

// How many of the moves start at `from`.
fn count_starts(moves: &[Move], from: u32) -> usize
    ensures { result ≡ count_from from (reverse moves.now) }
{
    // kept: a loop, since it runs for each move over all before it, and `filter` with `count` takes half as long again
    let mut n = 0;
    for m in moves {
        if m.from == from {
            n += 1;
        }
    }
    n
}

// Whether the move is a person's and not free.
fn is_paid_by_person(positions: &[Position], m: Move) -> bool
    ensures { result ≡ person_pays positions.now m }
{
    positions.get(m.from as usize).is_some_and(|p| p.turn == Turn::Person
        && (m.bruise > 0 || m.energy > 0))
}

// The move, if it may stand after those before it.
fn checked(positions: &[Position], before: &[Move], m: Move) -> Result<Move, LineFault>
    ensures { result ≡ move_checks positions.now (reverse before.now) m }
{
    if m.from < last_start(before) {
        return Err(LineFault::new(Refusal::FromFalls, 0));
    }
    if count_starts(before, m.from) >= 64 {
        return Err(LineFault::new(Refusal::TooManyMoves, 0));
    }
    if is_paid_by_person(positions, m) {
        return Err(LineFault::new(Refusal::PersonPays, 0));
    }
    Ok(m)
}

impl<'a> LineKind<Move> for MoveLines<'a> {
    ghost reading = { λ k. move_line k.positions.now };

    #[tactic(auto, using(crate::proofs::Before::checked_line))]
    fn entry(&self, line: &Line<'_>, before: &[Move]) -> Result<Move, LineFault> {
        let m = move_numbers(line, self.positions.len() as u32)?;
        checked(self.positions, before, m)
    }
}
