// Following a run on the board of a sheet.
use crate::desk::Console;
use board::Board;
use cells::Cell;
use cost::{Care, Energy, Peak};
use load::{Bench, load};
use session::{Served, serve};
use std::alloc::Global;
use std::io;
use std::io::{BufRead, Write};
use wording::{CostKind, Named};

// Serves a run on a bench for one kind of cost.
fn follow_kind<C: Named, R: BufRead + Drop, W: Write + Drop>(
    heap: Global,
    bench: &Bench,
    input: R,
    output: W,
) -> io::Result<()> {
    let count = bench.board.count() as usize;
    let mut one = vec![in heap; Cell::default(); count]?;
    let mut two = vec![in heap; Cell::default(); count]?;
    // kept: made here from its parts, since here the type says the kind.
    let mut console = Console::new(heap, C::KIND, input, output);
    match serve::<_, C, _>(
        &bench.board,
        bench.start.bruise,
        bench.start.energy,
        one.as_mut_slice(),
        two.as_mut_slice(),
        &mut console,
    ) {
        Ok(Served { plan, ending }) => {
            let _ = plan.close();
            console.finish(ending)
        }
        Err(unsolved) => {
            console.refuse(unsolved.why);
            Ok(())
        }
    }
}

/// Reads a sheet, and follows a run on its board by lines of events: each is answered at once with one line.
pub fn follow<R: BufRead + Drop, W: Write + Drop>(
    heap: Global,
    kind: CostKind,
    sheet: &[u8],
    input: R,
    mut output: W,
) -> io::Result<()> {
    match load(heap, sheet) {
        // kept: here the word picks the type
        Ok(bench) => match kind {
            CostKind::Energy => follow_kind::<Energy, R, W>(heap, &bench, input, output),
            CostKind::Peak => follow_kind::<Peak, R, W>(heap, &bench, input, output),
            CostKind::Care => follow_kind::<Care, R, W>(heap, &bench, input, output),
        },
        Err(error) => {
            let fault = error.fault()?;
            writeln!(output, "{fault}")
        }
    }
}
