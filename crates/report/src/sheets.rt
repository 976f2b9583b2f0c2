// The report on a sheet.
ghost use Rattle.std.specs.Prelude.{IfOk, string_bytes};
ghost use Rattle.load.specs.Boards.{load_sheet};
ghost use Rattle.report.specs.Reports.{Reported};

use crate::kinds::push_kinds;
use load::load;
use std::alloc::{AllocError, Global};

/// The listing of a sheet's board for energy, peak and care, or the sheet's refusal. It fails only for want of memory.
pub fn report(heap: Global, sheet: &[u8]) -> Result<String, AllocError>
    ensures { IfOk result (λ text. Reported (load_sheet sheet.now) (string_bytes text)) }
{
    match load(heap, sheet) {
        Ok(bench) => {
            let mut out = String::new(heap);
            push_kinds(heap, &mut out, &bench.board, bench.start)?;
            Ok(out)
        }
        Err(error) => {
            let fault = error.fault()?;
            format!(in heap; "{fault}\n")
        }
    }
}
