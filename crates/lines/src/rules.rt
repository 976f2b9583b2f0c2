// Rule lines.
ghost use Rattle.std.specs.Prelude.{◌≡◌, ℕ, List, [], ◌∷◌, reverse, drop, slice_index, Ok};
ghost use Rattle.sheet_format.specs.Cuts.{words};
ghost use Rattle.sheet_format.specs.Fields.{at_word, on_ok, read_field, read_fields};
ghost use Rattle.sheet_format.specs.Lines.{rule_line, sign as sign-field};
ghost use Rattle.lines.specs.Words.{word_at};

use crate::fields;
use crate::kinds::LineKind;
use entries::Rule;
use refusal::Refusal;
use sheet_format::LineFault;
use words::Line;

/// The name of a rule, and the signs that it asks for.
#[derive(Clone, Copy)]
pub struct RuleLines;

// The sign at a place.
fn sign(line: &Line<'_>, place: usize) -> Result<u32, LineFault>
    ensures { result ≡ at_word place (read_field sign-field (word_at line.now place)) }
{
    fields::number(line, place, 0, 15)
}

// The one sign after a name.
fn one_sign(line: &Line<'_>) -> Result<u32, LineFault>
    ensures { result ≡ on_ok (read_fields 2 (sign-field ∷ []) (drop 1 (words line.now.bytes.now))) (λ r. Ok (slice_index r 0)) }
{
    fields::word_count(line, 2)?;
    sign(line, 2)
}

// The two signs after a name.
fn two_signs(line: &Line<'_>) -> Result<(u32, u32), LineFault>
    ensures { result ≡ on_ok (read_fields 2 (sign-field ∷ sign-field ∷ []) (drop 1 (words line.now.bytes.now))) (λ r. Ok (slice_index r 0, slice_index r 1)) }
{
    fields::word_count(line, 3)?;
    Ok((sign(line, 2)?, sign(line, 3)?))
}

impl LineKind<Rule> for RuleLines {
    ghost reading = { λ _. rule_line };

    fn entry(&self, line: &Line<'_>, before: &[Rule]) -> Result<Rule, LineFault> {
        match line.word(1).word.bytes() {
            b"met" => Ok(Rule::Met(one_sign(line)?)),
            b"never" => Ok(Rule::Never(one_sign(line)?)),
            b"before" => {
                let (first, second) = two_signs(line)?;
                Ok(Rule::Before(first, second))
            }
            b"after" => {
                let (first, second) = two_signs(line)?;
                Ok(Rule::After(first, second))
            }
            _ => Err(LineFault::new(Refusal::UnknownMark, 1)),
        }
    }
}
