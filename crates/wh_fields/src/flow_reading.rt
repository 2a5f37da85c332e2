//! Reading of flows.
ghost use Rattle.std.specs.Prelude.{◌≡◌, ◌≤◌, ◌<◌};
ghost use Rattle.wh_words.specs.Limits.{most_rank};
ghost use Rattle.wh_words.specs.Flows as flows;
ghost use Rattle.wh_flow.specs.Tables.{pair_count, zero_table, with_cell};
ghost use Rattle.wh_fields.specs.FlowFields as spec;
ghost use Rattle.wh_fields.specs.FlowFields.{pair_in, table_from, flow_in};

use crate::letter::letter_of;
use std::marker::Model;
use wh_flow::Flow;
use wh_lines::{Field, canonical_number};
use wh_words::Letter;

/// Two letters, and what flows from the first to the second.
#[derive(Drop)]
struct Pair {
    from: Letter,
    to: Letter,
    amount: u32,
}

impl Model for Pair {
    ghost use Rattle.wh_fields.specs.FlowFields as spec;

    ghost Value = { spec.Pair };

    ghost view = { λ p. record { from = p.from; to = p.to; amount = p.amount } };
}

/// What a `flow` line tells: a letter and a value, and a flow.
#[derive(Drop)]
pub struct FlowLine {
    letter: Letter,
    value: u32,
    flow: Flow,
}

impl Model for FlowLine {
    ghost use Rattle.wh_fields.specs.FlowFields as spec;

    ghost Value = { spec.FlowData };

    ghost view = { λ f. record { head = (f.letter, f.value); table = f.flow } };
}

impl FlowLine {
    /// The letter and the value, and the flow.
    pub fn into_parts(self) -> ((Letter, u32), Flow)
        ensures head { result.0 ≡ self.head }
        ensures flow { result.1 ≡ self.table }
    {
        let FlowLine {
            letter,
            value,
            flow,
        } = self;
        ((letter, value), flow)
    }
}

/// A number, where there is one below 2 ^ 32.
fn small(number: Option<u64>) -> Option<u32>
    ensures { result ≡ spec.small number }
{
    match number {
        Some(n) if n <= 4294967295 => Some(n as u32),
        _ => None,
    }
}

/// The pair of two letters and an amount, where the letters differ and the amount is 1 to 4,294,967,295.
fn pair_with(from: Letter, to: Letter, amount: u64) -> Option<Pair>
    ensures { result ≡ spec.pair_with from to amount }
{
    if from == to || amount == 0 || amount > 4294967295 {
        return None;
    }
    Some(Pair {
        from,
        to,
        amount: amount as u32,
    })
}

/// The pair of rank `n` that the bytes of a field tell: two letters, `:` and a number.
#[tactic(auto, unfolding(crate::specs::FlowFields::pair_in))]
fn pair_of(n: u8, bytes: &[u8]) -> Option<Pair>
    requires { n ≤ most_rank }
    ensures { result ≡ pair_in n bytes.now }
{
    let [x, y, colon, digits @ ..] = bytes else {
        return None;
    };
    if *colon != b':' {
        return None;
    }
    let from = letter_of(n, *x)?;
    let to = letter_of(n, *y)?;
    let amount = canonical_number(digits)?;
    pair_with(from, to, amount)
}

/// The place of a pair in the order of pairs.
fn place(pair: &Pair) -> usize
    ensures same { result ≡ flows.place pair.now.from pair.now.to }
    ensures within { result < pair_count }
{
    52 * pair.from.index() as usize + pair.to.index() as usize
}

/// Lets the amount of a pair flow.
fn put(flow: &mut Flow, pair: &Pair)
    ensures { flow.new ≡ with_cell flow.old pair.now.from pair.now.to pair.now.amount }
{
    flow.set(pair.from, pair.to, pair.amount);
}

/// A pair, where there is one whose place is at least `least`.
fn pair_from(least: usize, pair: Option<Pair>) -> Option<Pair>
    ensures { result ≡ spec.pair_from least pair }
{
    let pair = pair?;
    if place(&pair) < least {
        return None;
    }
    Some(pair)
}

/// The flow of the pairs of fields. None where a field is no pair of rank `n`, or they don't rise.
#[tactic(auto, using(crate::proofs::PairTables::table_end))]
fn flow_of(n: u8, fields: &[Field]) -> Option<Flow>
    requires { n ≤ most_rank }
    ensures { result ≡ table_from n zero_table 0 fields.now }
{
    let mut flow = Flow::zero();
    let mut least = 0;
    for field in fields {
        match pair_from(least, pair_of(n, field.bytes())) {
            Some(pair) => {
                put(&mut flow, &pair);
                least = place(&pair) + 1;
            }
            None => return None,
        }
    }
    Some(flow)
}

/// The letter of rank `n` that a field tells.
fn one_letter(n: u8, bytes: &[u8]) -> Option<Letter>
    requires { n ≤ most_rank }
    ensures { result ≡ spec.letter_in n bytes.now }
{
    match bytes {
        [byte] => letter_of(n, *byte),
        _ => None,
    }
}

/// What the fields of a `flow` line tell in rank `n`: a letter, a value below 2 ^ 32, and pairs that rise. None where they
/// don't.
#[tactic(auto, unfolding(crate::specs::FlowFields::flow_in))]
pub fn read_flow(n: u8, fields: &[Field]) -> Option<FlowLine>
    requires { n ≤ most_rank }
    ensures { result ≡ flow_in n fields.now }
{
    let [letter, value, pairs @ ..] = fields else {
        return None;
    };
    let letter = one_letter(n, letter.bytes())?;
    let value = small(canonical_number(value.bytes()))?;
    let flow = flow_of(n, pairs)?;
    Some(FlowLine {
        letter,
        value,
        flow,
    })
}
