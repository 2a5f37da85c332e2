//! Printing of tuples.
ghost use Rattle.std.specs.Prelude.{◌≡◌, ◌∷◌, ◌++◌, map, OnOk};
ghost use Rattle.wh_lines.specs.Rows.{fields_text, row_text};
ghost use Rattle.wh_fields.specs.Words.{letter_text, word_text};
ghost use Rattle.wh_fields.specs.TupleFields.{words_row};

use crate::letter::letter_byte;
use wh_words::{Letter, OutOfMemory, Tuple};

/// Writes the letters of a word.
fn print_letters(out: &mut Vec<u8>, word: &[Letter]) -> Result<(), OutOfMemory>
    ensures { OnOk result (out.new.items ≡ out.old.items ++ map letter_text word.now) }
{
    for x in word {
        out.push(letter_byte(*x))?;
    }
    Ok(())
}

/// Writes a word as a field.
fn print_word(out: &mut Vec<u8>, word: &[Letter]) -> Result<(), OutOfMemory>
    ensures { OnOk result (out.new.items ≡ out.old.items ++ (32 ∷ word_text word.now)) }
{
    out.push(b' ')?;
    if word.is_empty() {
        out.push(b'1')?;
        Ok(())
    } else {
        print_letters(out, word)
    }
}

/// Writes the words of a tuple as fields.
fn print_word_fields(out: &mut Vec<u8>, tuple: &Tuple) -> Result<(), OutOfMemory>
    ensures { OnOk result (out.new.items ≡ out.old.items ++ fields_text (map word_text tuple.now.plain.words)) }
{
    for place in 0..tuple.count() {
        print_word(out, tuple.word(place))?;
    }
    Ok(())
}

/// Writes the line of a keyword and the words of a tuple.
pub fn print_words(out: &mut Vec<u8>, keyword: &[u8], tuple: &Tuple) -> Result<(), OutOfMemory>
    ensures { OnOk result (out.new.items ≡ out.old.items ++ row_text (words_row keyword.now tuple.now.plain.words)) }
{
    out.extend_from_slice(keyword)?;
    print_word_fields(out, tuple)?;
    out.push(b'\n')?;
    Ok(())
}
