// The run of a chart over many scans, or one scan of it, for any tables and any lent slices: what is not to be run is
// refused, in document 01's order.
#![tactic(auto)]

ghost use Rattle.tables.specs.Given.{given};
ghost use Rattle.chart_calls.specs.Runs.{ChartRan};
ghost use Rattle.chart_calls.specs.Steps.{ChartStepped};

use meaning::Refusal;
use tables::ChartTables;

// The run of any tables over lent state, one scan for each input word, or why there is none.
pub fn run_chart(
    t: &ChartTables<'_>,
    state: &mut [u32],
    inputs: &[u64],
    leaves: &mut [u16],
    outputs: &mut [u64],
) -> Result<usize, Refusal>
    ensures { ChartRan (given t.now) inputs.now state.old leaves.old outputs.old result state.new leaves.new
        outputs.new }
{
    check_tables::check(t)?;
    chart_lent::run_checked(t, state, inputs, leaves, outputs)
}

// What is seen after a scan: the active leaf and the output word.
#[derive(Clone, Copy)]
pub struct StepSeen {
    pub leaf: u16,
    pub outputs: u64,
}

// A scan is a run of one, with room for one leaf and one output word, so that SCANS cannot be given.
pub fn step_chart(t: &ChartTables<'_>, state: &mut [u32], x: u64) -> Result<StepSeen, Refusal>
    ensures { ChartStepped (given t.now) x state.old result state.new }
{
    let inputs = [x];
    let mut leaves = [0];
    let mut outputs = [0];
    run_chart(t, state, &inputs, &mut leaves, &mut outputs)?;
    Ok(StepSeen {
        leaf: leaves[0],
        outputs: outputs[0],
    })
}
