//! Printing of flows.
ghost use Rattle.std.specs.Prelude.{◌≡◌, ◌+◌, ◌*◌, ◌<◌, ◌≤◌, ◌++◌, OnOk};
ghost use Rattle.wh_words.specs.Flows.{outflow, inflow};
ghost use Rattle.wh_flow.specs.Tables.{cell};
ghost use Rattle.wh_fields.specs.FlowFields as spec;
ghost use Rattle.wh_fields.specs.FlowFields.{HasSmallValue, HaveLines};
ghost use Rattle.wh_fields.specs.Repeated.{below};
ghost use Rattle.wh_lines.specs.Rows.{fields_text, row_text, rows_text};

use crate::letter::letter_byte;
use wh_flow::Flow;
use wh_lines::print_number;
use wh_words::{Letter, OutOfMemory, Rank};

/// Writes what flows from `x` to `y` as a field, where that is more than nothing.
#[tactic(auto, using(crate::proofs::RepeatedTexts::pair_text))]
fn print_pair(out: &mut Vec<u8>, flow: &Flow, x: Letter, y: Letter) -> Result<(), OutOfMemory>
    ensures { OnOk result (out.new.items ≡ out.old.items ++ fields_text (spec.pair_item flow.now x y)) }
{
    let amount = flow.get(x, y);
    if x == y || amount == 0 {
        return Ok(());
    }
    out.push(b' ')?;
    out.push(letter_byte(x))?;
    out.push(letter_byte(y))?;
    out.push(b':')?;
    print_number(out, amount as u64)
}

/// Writes what flows from `x` to each letter of the rank.
#[tactic(auto, using(crate::proofs::RepeatedTexts::fields_start))]
fn print_row(out: &mut Vec<u8>, rank: Rank, flow: &Flow, x: Letter) -> Result<(), OutOfMemory>
    ensures { OnOk result (out.new.items ≡ out.old.items ++ fields_text (below (spec.pair_item flow.now x) (2 * rank))) }
{
    for y in 0..2 * rank.get() {
        print_pair(out, flow, x, Letter::of_index(y))?;
    }
    Ok(())
}

/// Writes what flows between the letters of the rank.
#[tactic(auto, using(crate::proofs::RepeatedTexts::fields_start))]
fn print_pairs(out: &mut Vec<u8>, rank: Rank, flow: &Flow) -> Result<(), OutOfMemory>
    ensures { OnOk result (out.new.items ≡ out.old.items ++ fields_text (spec.pair_fields rank flow.now)) }
{
    for x in 0..2 * rank.get() {
        print_row(out, rank, flow, Letter::of_index(x))?;
    }
    Ok(())
}

/// The value of a flow from a letter, where it isn't negative.
fn flow_value(flow: &Flow, letter: Letter) -> u64
    requires { inflow (cell flow.now) letter ≤ outflow (cell flow.now) letter }
    ensures { result ≡ spec.flow_value flow.now letter }
{
    flow.value(letter) as u64
}

/// Writes the line of a flow from the letter of a generator.
fn print_flow(out: &mut Vec<u8>, rank: Rank, letter: Letter, flow: &Flow) -> Result<(), OutOfMemory>
    requires { HasSmallValue flow.now letter }
    ensures { OnOk result (out.new.items ≡ out.old.items ++ row_text (spec.flow_row rank letter flow.now)) }
{
    out.extend_from_slice(b"flow ")?;
    out.push(letter_byte(letter))?;
    out.push(b' ')?;
    print_number(out, flow_value(flow, letter))?;
    print_pairs(out, rank, flow)?;
    out.push(b'\n')?;
    Ok(())
}

/// Writes the lines of flows, one for each generator of the rank.
pub fn print_flows(out: &mut Vec<u8>, rank: Rank, flows: &[Flow]) -> Result<(), OutOfMemory>
    requires { HaveLines rank flows.now }
    ensures { OnOk result (out.new.items ≡ out.old.items ++ rows_text (spec.flow_rows rank 0 flows.now)) }
{
    for generator in 0..rank.get() {
        let flow = &flows[generator as usize];
        print_flow(out, rank, Letter::of_index(2 * generator), flow)?;
    }
    Ok(())
}
