// The bytes of a sheet.
ghost use Rattle.std.specs.Prelude.{◌≡◌, take, IfOk, IfSome};

use sheet_format::MOST_BYTES;
use std::alloc::Global;
use std::io;
use std::io::Read;

/// The bytes that a reader has left, up to one more than a sheet may have: a longer sheet is then refused by its length.
pub fn read_bytes<R: Read + Drop>(heap: Global, input: R) -> io::Result<Vec<u8>>
    ensures { IfOk result (λ bytes. IfSome (R.remaining input) (λ xs. bytes.items ≡ take 65537 xs)) }
{
    let mut bytes = Vec::new(heap);
    input.take(MOST_BYTES as u64 + 1).read_to_end(&mut bytes)?;
    Ok(bytes)
}
