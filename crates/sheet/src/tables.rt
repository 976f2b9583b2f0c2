// Writing an accepted sheet to the caller's tables.
ghost use Rattle.std.specs.Prelude.{◌≡◌, ◌≤◌, ◌++◌, length, drop, nat_eq};
ghost use Rattle.std.specs.List.{prefix_len};
ghost use Rattle.sheet_format.specs.Boards.{entries_from};
ghost use Rattle.sheet_format.specs.WellFormed.{NeverFalling};

use entries::{Move, Position, PositionEntry};

// Writes a list to the front of a table.
pub(crate) fn copy_front<T: Copy>(table: &mut [T], list: &[T])
    requires { length list.now ≤ length table.old }
    ensures { table.new ≡ list.now ++ drop (length list.now) table.old }
{
    table[..list.len()].copy_from_slice(list);
}

// How many of the moves, from the first on, start at `from`.
fn run_len(moves: &[Move], from: u32) -> usize
    ensures run { result ≡ prefix_len (λ m. nat_eq m.from from) moves.now }
    ensures within { result ≤ length moves.now }
{
    moves.iter().take_while(|m| m.from == from).count()
}

// Writes positions to the front of the position table, each with the span of its moves.
pub(crate) fn write_positions(table: &mut [PositionEntry], positions: &[Position], moves: &[Move])
    requires { (length positions.now ≤ length table.old) × ((length positions.now ≤ 4096) × ((length moves.now ≤ 4096) × (NeverFalling 0 moves.now))) }
    ensures { table.new ≡ entries_from moves.now 0 positions.now ++ drop (length positions.now) table.old }
{
    // kept: the table is written by index. After a loop over `table.iter_mut().zip(positions)`, which was tried, no fact says what the table holds.
    let mut first = 0;
    for (p, position) in positions.iter().enumerate() {
        let degree = run_len(&moves[first..], p as u32);
        table[p] = PositionEntry {
            position: *position,
            first: first as u32,
            degree: degree as u32,
        };
        first += degree;
    }
}
