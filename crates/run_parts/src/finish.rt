// The end of a run: from the end of its steps to the answer.
ghost use Rattle.std.specs.Prelude.{ℕ, List};
ghost use Rattle.words.specs.Words.{words};
ghost use Rattle.machine_nodes.specs.Nodes.{nodes_in};
ghost use Rattle.words.specs.Quadwords.{Quadword, quadwords_in};
ghost use Rattle.machine_state.specs.Memory.{memory};
ghost use Rattle.run_parts.specs.Parts.{EndsAs};

use listing_writer::write_listing;
use machine::{Advanced, Ending};
use refusals::Refusal;
use run_answers::Finished;
use words::quadwords::word_in;

// At the finish the listing is written; otherwise the steps' limit is reached, or the next step exceeds a size.
pub fn finish(
    advanced: Advanced,
    out: &mut [u8],
    nodes: &[u8],
    types: &[u8],
    frames: &[u8],
    gates: &[u8],
) -> Result<Finished, Refusal>
    ensures { (rs : List Quadword) (cs : List Quadword) (results : ℕ → List ℕ)
        → EndsAs (memory (nodes_in nodes.now) rs (quadwords_in gates.now) cs (quadwords_in frames.now) (words types.now) results)
        out.old out.new advanced result }
{
    match advanced.ending {
        Ending::Finished => {
            let place = advanced.numbers.place;
            let counts = advanced.numbers.counts;
            let inputs = word_in(frames, 0, 2);
            let length = write_listing(types, inputs, gates, counts.gates, nodes, place.left, out);
            Ok(Finished {
                steps: advanced.steps,
                gates: counts.gates,
                length,
            })
        }
        Ending::Running => Err(Refusal::Run {
            number: 21,
            place: 0,
        }),
        Ending::TooLarge => Err(Refusal::Run {
            number: 22,
            place: 0,
        }),
    }
}
