// The beginning of a run: the check, and the start of an accepted program of wire type in memory.
ghost use Rattle.std.specs.Prelude.{◌≤◌, ◌≡◌, length};
ghost use Rattle.words.specs.Words.{words};
ghost use Rattle.machine_nodes.specs.Nodes.{nodes_in};
ghost use Rattle.words.specs.Quadwords.{quadwords_in};
ghost use Rattle.check_program.specs.Answers.{check_of};
ghost use Rattle.run_parts.specs.Parts.{BegunAs};

use check_program::program_type;
use check_types::is_wire_type;
use machine_load::load;
use machine_state::StateNumbers;
use refusals::Refusal;

// The check, with the nodes' buffer as its working memory; of a file that is accepted with a wire type the start is loaded, and
// the answer is its numbers. A refusal of the check is handed up unchanged.
pub fn begin(
    file: &[u8],
    nodes: &mut [u8],
    types: &mut [u8],
    frames: &mut [u8],
) -> Result<StateNumbers, Refusal>
    ensures { 65536 ≤ length nodes.old
        → BegunAs file.now (check_of file.now) (nodes_in nodes.new) (words types.new) (quadwords_in frames.new) result }
{
    let found = program_type(file, nodes);
    let Ok(cell) = found else {
        return Err(found.unwrap_err());
    };
    if !is_wire_type(nodes, cell) {
        return Err(Refusal::Run {
            number: 20,
            place: 0,
        });
    }
    Ok(load(file, nodes, types, frames))
}
