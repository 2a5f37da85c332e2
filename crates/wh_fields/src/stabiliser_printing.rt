//! Printing of what is told of a stabiliser: the tree of its level, its generators and its relators.
ghost use Rattle.std.specs.Prelude.{◌≡◌, ◌∷◌, ◌++◌, map, OnOk, decimal};
ghost use Rattle.wh_lines.specs.Rows.{fields_text, row_text};
ghost use Rattle.wh_fields.specs.StabiliserFields.{vertex_text, HasNumber, tree_row, generator_row, relator_row};

use crate::move_printing::{print_move, print_move_fields};
use wh_lines::print_number;
use wh_moves::Move;
use wh_words::OutOfMemory;

/// Writes a number as a field.
fn print_number_field(out: &mut Vec<u8>, n: u64) -> Result<(), OutOfMemory>
    ensures { OnOk result (out.new.items ≡ out.old.items ++ (32 ∷ decimal n)) }
{
    out.push(b' ')?;
    print_number(out, n)
}

/// Writes numbers as fields.
fn print_number_fields(out: &mut Vec<u8>, numbers: &[u32]) -> Result<(), OutOfMemory>
    ensures { OnOk result (out.new.items ≡ out.old.items ++ fields_text (map decimal numbers.now)) }
{
    for n in numbers {
        print_number_field(out, *n as u64)?;
    }
    Ok(())
}

/// Writes the number of a vertex as a field.
fn print_vertex(out: &mut Vec<u8>, vertex: usize) -> Result<(), OutOfMemory>
    requires { HasNumber vertex }
    ensures { OnOk result (out.new.items ≡ out.old.items ++ (32 ∷ vertex_text vertex)) }
{
    print_number_field(out, vertex as u64 + 1)
}

/// Writes the line of a vertex and its parent, from which a move leads to it. Both are counted from 0, and told from 1.
pub fn print_tree_edge(
    out: &mut Vec<u8>,
    vertex: usize,
    parent: usize,
    m: &Move,
) -> Result<(), OutOfMemory>
    requires vertex { HasNumber vertex }
    requires parent { HasNumber parent }
    ensures { OnOk result (out.new.items ≡ out.old.items ++ row_text (tree_row vertex parent m.now)) }
{
    out.extend_from_slice(b"tree")?;
    print_vertex(out, vertex)?;
    print_vertex(out, parent)?;
    print_move(out, m)?;
    out.push(b'\n')?;
    Ok(())
}

/// Writes the line of a generator: a vertex, counted from 0 and told from 1, and a move from it.
pub fn print_generator(out: &mut Vec<u8>, vertex: usize, m: &Move) -> Result<(), OutOfMemory>
    requires { HasNumber vertex }
    ensures { OnOk result (out.new.items ≡ out.old.items ++ row_text (generator_row vertex m.now)) }
{
    out.extend_from_slice(b"generator")?;
    print_vertex(out, vertex)?;
    print_move(out, m)?;
    out.push(b'\n')?;
    Ok(())
}

/// Writes the line of a relator: a vertex, counted from 0 and told from 1, the moves of a way round from it, and the numbers
/// of the generators on this way.
pub fn print_relator(
    out: &mut Vec<u8>,
    vertex: usize,
    moves: &[Move],
    word: &[u32],
) -> Result<(), OutOfMemory>
    requires { HasNumber vertex }
    ensures { OnOk result (out.new.items ≡ out.old.items ++ row_text (relator_row vertex moves.now word.now)) }
{
    out.extend_from_slice(b"relator")?;
    print_vertex(out, vertex)?;
    print_move_fields(out, moves)?;
    out.extend_from_slice(b" =")?;
    print_number_fields(out, word)?;
    out.push(b'\n')?;
    Ok(())
}
