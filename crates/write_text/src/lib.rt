// The text of a chart, for any tables and any lent slice: what has no text is refused, in document 01's order.
#![tactic(auto)]

ghost use Rattle.meaning.specs.Tables.{Tables};
ghost use Rattle.format.specs.Printed.{chart_text};
ghost use Rattle.format.specs.TextWritten.{TextWritten};
ghost use Rattle.tables.specs.Given.{given};
ghost use Rattle.layout.specs.Laid.{LaidOut};
ghost use Rattle.write_lines.specs.Fit.{PutIfRoom};
ghost use Rattle.write_text.specs.Wrote.{RuledTables};
ghost use Rattle.write_text.specs.Texts.{ChartWritten};

use layout::Layout;
use meaning::Refusal;
use tables::ChartTables;

// "PROGRAM CHART; ..; the rungs; END_PROGRAM", from the front, where the slice holds them.
fn put_text(out: &mut [u8], t: &ChartTables<'_>, layout: &Layout) -> usize
    ensures { (c : Tables) → RuledTables c t.now.chart.outputs t.now.states.now
        t.now.moves.now t.now.presets.now t.now.timer_pairs.now t.now.output_pairs.now
        → LaidOut c layout.now → PutIfRoom out.old 0 (chart_text c) out.new result }
{
    let head = write_spelling::put_head(out, 0, t.timer_count());
    let timers = write_rungs::put_timers(out, head, t, layout);
    let rungs = write_rungs::put_moves(out, timers, t, layout);
    let copies = write_rungs::put_copies(out, rungs, layout.total);
    let end = write_rungs::put_outputs(out, copies, t, layout);
    write_spelling::put_end(out, end)
}

// The text of a chart whose tables keep the rules. It is measured first, over no byte, so that a refusal has written
// nothing and ROOM tells the whole length.
pub fn write_checked(t: &ChartTables<'_>, out: &mut [u8]) -> Result<usize, Refusal>
    ensures { (c : Tables) → RuledTables c t.now.chart.outputs t.now.states.now
        t.now.moves.now t.now.presets.now t.now.timer_pairs.now t.now.output_pairs.now
        → TextWritten (chart_text c) out.old result out.new }
{
    let layout = layout::lay_out(t);
    let n = put_text(&mut [], t, &layout);
    if out.len() < n {
        return Err(Refusal::Room(n));
    }
    put_text(out, t, &layout);
    Ok(n)
}

// The text of any tables, or why there is none.
pub fn write(t: &ChartTables<'_>, out: &mut [u8]) -> Result<usize, Refusal>
    ensures { ChartWritten (given t.now) out.old result out.new }
{
    check_tables::check(t)?;
    write_checked(t, out)
}
