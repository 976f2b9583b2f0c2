// Where a reading of a sheet stands.
ghost use Rattle.std.specs.Prelude.{◌+◌, ◌≤◌, length};

// The bytes of a sheet, the byte that the next line begins at, and that line's number.
#[derive(Drop)]
pub(crate) struct Reader<'a> {
    pub(crate) sheet: &'a [u8],
    pub(crate) at: usize,
    pub(crate) line: usize,
    ghost short: { length sheet.now ≤ 65536 },
    ghost within: { at ≤ length sheet.now },
    ghost counted: { line ≤ at + 1 },
}
