//! The first flow of a value: each number in turn is made the least that the numbers before it allow.
ghost use Rattle.std.specs.Prelude.{◌≡◌, ◌+◌, ◌<◌, ◌≤◌, true, false};
ghost use Rattle.wh_words.specs.Flows.{IsFlow, IsFirstFlow, HaveOneValue, AgreeBefore, place};
ghost use Rattle.wh_flow.specs.Tables.{IsTable, cell};
ghost use Rattle.wh_flow.specs.Searches.{IsOfLetters};
ghost use Rattle.wh_flow.specs.Rerouting.{HaveOneNetFlow, IsLeastAt, IsFirstUpTo};

use crate::flow::Flow;
use crate::net::Net;
use crate::residual::ResidualNet;
use crate::search::Search;
use wh_words::Letter;

/// The first flow from `s` to `t` of the value of a given one: numbers are compared pair by pair, by the first letter and
/// then by the second, and a smaller number comes first.
pub fn least_flow(net: &Net, flow: &Flow, s: Letter, t: Letter) -> Flow
    requires flow { IsFlow (cell net.now.cells) (cell flow.now) s t }
    ensures table { IsTable result }
    ensures first { IsFirstFlow (cell net.now.cells) (cell result) s t }
    ensures same { HaveOneValue (cell flow.now) (cell result) s }
{
    // Both indices are below 52, which the proof takes from these calls.
    s.index();
    t.index();
    let mut residual = ResidualNet::of(net, flow);
    lower_all(&mut residual, net.letters());
    residual.into_flow()
}

/// Lowers the numbers of the first rows in turn.
fn lower_all(residual: &mut ResidualNet, letters: usize)
    requires letters { letters ≤ 52 }
    requires of_letters { IsOfLetters letters residual.old.cap }
    requires from { residual.old.from ≡ 0 }
    ensures cap { residual.new.cap ≡ residual.old.cap }
    ensures net { HaveOneNetFlow (cell residual.old.flow) (cell residual.new.flow) }
    ensures first { IsFirstUpTo (place letters 0) (cell residual.old.cap) (cell residual.new.flow) }
{
    for x in 0..letters {
        lower_row(residual, letters, x);
    }
}

/// Lowers the numbers of a row in turn, to the letters that the network has.
fn lower_row(residual: &mut ResidualNet, letters: usize, x: usize)
    requires letters { letters ≤ 52 }
    requires of_letters { IsOfLetters letters residual.old.cap }
    requires x_within { x < 52 }
    requires from { residual.old.from ≡ place x 0 }
    requires first { IsFirstUpTo (place x 0) (cell residual.old.cap) (cell residual.old.flow) }
    ensures cap { residual.new.cap ≡ residual.old.cap }
    ensures from { residual.new.from ≡ place (x + 1) 0 }
    ensures net { HaveOneNetFlow (cell residual.old.flow) (cell residual.new.flow) }
    ensures first { IsFirstUpTo (place (x + 1) 0) (cell residual.old.cap) (cell residual.new.flow) }
{
    for y in 0..letters {
        residual.leave_out(x, y);
        lower(residual, x, y);
    }
    residual.leave_out_empty(52 - letters);
}

/// Lowers the number at `x` and `y` as far as later pairs can make up for it.
fn lower(residual: &mut ResidualNet, x: usize, y: usize)
    requires x_within { x < 52 }
    requires y_within { y < 52 }
    requires from { residual.old.from ≡ place x y + 1 }
    ensures cap { residual.new.cap ≡ residual.old.cap }
    ensures from { residual.new.from ≡ residual.old.from }
    ensures net { HaveOneNetFlow (cell residual.old.flow) (cell residual.new.flow) }
    ensures front { AgreeBefore (place x y) (cell residual.old.flow) (cell residual.new.flow) }
    ensures least { IsLeastAt (cell residual.old.cap) (cell residual.new.flow) x y }
{
    'lower: while reroute(residual, x, y) {}
}

/// Takes some of the number at `x` and `y` round by later pairs, or answers false where it is the least.
fn reroute(residual: &mut ResidualNet, x: usize, y: usize) -> bool
    requires x_within { x < 52 }
    requires y_within { y < 52 }
    requires from { residual.old.from ≡ place x y + 1 }
    ensures cap { residual.new.cap ≡ residual.old.cap }
    ensures from { residual.new.from ≡ residual.old.from }
    ensures net { HaveOneNetFlow (cell residual.old.flow) (cell residual.new.flow) }
    ensures front { AgreeBefore (place x y) (cell residual.old.flow) (cell residual.new.flow) }
    ensures lower { result ≡ true → cell residual.new.flow x y < cell residual.old.flow x y }
    ensures same { result ≡ false → residual.new ≡ residual.old }
    ensures least { result ≡ false → IsLeastAt (cell residual.old.cap) (cell residual.old.flow) x y }
{
    let limit = residual.flow_of(x, y);
    if limit == 0 {
        return false;
    }
    let d = Search::new(Letter::of_index(y as u8)).push(residual, x, limit);
    if d == 0 {
        return false;
    }
    residual.lower(x, y, d);
    true
}
