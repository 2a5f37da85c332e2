//! Printing of moves.
ghost use Rattle.std.specs.Prelude.{◌≡◌, ◌∷◌, ◌++◌, map, OnOk};
ghost use Rattle.wh_lines.specs.Rows.{fields_text, row_text};
ghost use Rattle.wh_fields.specs.MoveFields.{set_text, kind_text, moves_row};

use crate::letter::letter_byte;
use wh_lines::print_number;
use wh_moves::{Kind, Move};
use wh_words::{Letter, LetterSet, OutOfMemory};

/// Writes the letters of a set, rising.
#[tactic(auto, using(crate::proofs::SetTexts::set_start, crate::proofs::SetTexts::set_more, crate::proofs::SetTexts::set_none))]
fn print_set(out: &mut Vec<u8>, set: LetterSet) -> Result<(), OutOfMemory>
    ensures { OnOk result (out.new.items ≡ out.old.items ++ set_text set) }
{
    for index in 0..52 {
        let x = Letter::of_index(index);
        if set.contains(x) {
            out.push(letter_byte(x))?;
        }
    }
    Ok(())
}

/// Writes a move as a field.
pub fn print_move(out: &mut Vec<u8>, m: &Move) -> Result<(), OutOfMemory>
    ensures { OnOk result (out.new.items ≡ out.old.items ++ (32 ∷ kind_text m.now.kind)) }
{
    out.push(b' ')?;
    match m.kind() {
        Kind::Swap(k) => {
            out.push(b's')?;
            print_number(out, k as u64)
        }
        Kind::Invert(k) => {
            out.push(b'i')?;
            print_number(out, k as u64)
        }
        Kind::Cut { mult, set } => {
            out.push(letter_byte(mult))?;
            out.push(b':')?;
            print_set(out, set)
        }
    }
}

/// Writes moves as fields.
pub fn print_move_fields(out: &mut Vec<u8>, moves: &[Move]) -> Result<(), OutOfMemory>
    ensures { OnOk result (out.new.items ≡ out.old.items ++ fields_text (map (λ m. kind_text m.kind) moves.now)) }
{
    for m in moves {
        print_move(out, m)?;
    }
    Ok(())
}

/// Writes the line of a keyword and moves.
pub fn print_moves(out: &mut Vec<u8>, keyword: &[u8], moves: &[Move]) -> Result<(), OutOfMemory>
    ensures { OnOk result (out.new.items ≡ out.old.items ++ row_text (moves_row keyword.now moves.now)) }
{
    out.extend_from_slice(keyword)?;
    print_move_fields(out, moves)?;
    out.push(b'\n')?;
    Ok(())
}
