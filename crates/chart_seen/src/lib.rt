// What is seen after a scan: the active leaf and the output word.
#![tactic(auto)]

ghost use Rattle.std.specs.Prelude.{◌≡◌, ◌<◌, set};
ghost use Rattle.meaning.specs.Tables.{Tables, state_count};
ghost use Rattle.meaning.specs.Rules.{Rules};
ghost use Rattle.meaning.specs.Machine.{seen_at_leaf};
ghost use Rattle.check_pairing.specs.Words.{PairedWords};

// What is seen in the leaf l stands at place i of the results.
pub fn show(shows: &[u64], l: usize, i: usize, leaves: &mut [u16], outputs: &mut [u64])
    ensures { (c : Tables) → Rules c → PairedWords c c.output_pairs shows.now → l < state_count c
        → (leaves.new ≡ set leaves.old i l)
        × (outputs.new ≡ set outputs.old i (seen_at_leaf c l).outputs) }
{
    chart_moving::remember(leaves, i, l);
    slices::put(outputs, i, slices::at(shows, l, 0));
}
