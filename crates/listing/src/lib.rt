// The listing of a graph's text: which blocks share a state, and how many wires each state has.
#![tactic(auto)]

pub mod lines; // lines.rt: the lines of a listing
pub mod table; // table.rt: the listing that a machine table's words give

ghost use Rattle.std.specs.Prelude.{◌≡◌, ◌≤◌, length};
ghost use Rattle.refusal.specs.Refusal.{number};
ghost use Rattle.cfg.specs.Table.{graph_of};
ghost use Rattle.synthesis.specs.Synthesis.{machine};
ghost use Rattle.listing.specs.Listing.{max_listing, machine_listing, refused_line, answer_for, output_for, listing, list_answer, list_bytes};
ghost use Rattle.listing.specs.Words.{table_listing};

use cfg::GraphTable;
use cfg::graph::AdmittedGraph;
use cfg_text::ReadError;
use fsmd::MachineTable;
use fsmd::table::MachineWords;
use table::ListedMachine;

// The most bytes of a listing.
pub const LONGEST: usize = 4096;

// An output that does not hold the listing: the bytes that it would have to hold.
#[derive(Clone, Copy, Debug, PartialEq, Eq)]
pub struct ShortOutput {
    pub needed: u32,
}

// Bytes into an output that may be too short for them.
fn hand_over(new: &[u8], out: &mut [u8]) -> Result<u32, ShortOutput>
    requires { length new.now ≤ max_listing }
    ensures value { result ≡ answer_for new.now out.old }
    ensures out_after { out.new ≡ output_for new.now out.old }
{
    let n = new.len();
    if out.len() < n {
        return Err(ShortOutput { needed: n as u32 });
    }
    out[..n].copy_from_slice(new);
    Ok(n as u32)
}

// The line of a refused text.
fn list_refusal(error: ReadError, out: &mut [u8]) -> Result<u32, ShortOutput>
    ensures value { result ≡ answer_for (refused_line (number error.refusal) error.line) out.old }
    ensures out_after { out.new ≡ output_for (refused_line (number error.refusal) error.line) out.old }
    ensures line_len_bound { length (refused_line (number error.refusal) error.line) ≤ max_listing }
{
    let mut new = [0u8; 32];
    let n = lines::put_refused(&mut new, u32::from(error.refusal), error.line);
    hand_over(&new[..n], out)
}

// The lines of a machine.
fn list_machine(machine: ListedMachine, out: &mut [u8]) -> Result<u32, ShortOutput>
    ensures value { result ≡ answer_for (table_listing machine.entry.table.words.now) out.old }
    ensures out_after { out.new ≡ output_for (table_listing machine.entry.table.words.now) out.old }
    ensures machine_len_bound { length (table_listing machine.entry.table.words.now) ≤ max_listing }
{
    let mut new = [0u8; LONGEST];
    let n = machine.put_listing(&mut new);
    hand_over(&new[..n], out)
}

// The lines of the machine of a graph, for which synthesis has no refusal.
fn list_graph(graph: AdmittedGraph, out: &mut [u8]) -> Result<u32, ShortOutput>
    ensures value { result ≡ answer_for (machine_listing (machine (graph_of graph.entry.words.now))) out.old }
    ensures out_after { out.new ≡ output_for (machine_listing (machine (graph_of graph.entry.words.now))) out.old }
    ensures graph_len_bound { length (machine_listing (machine (graph_of graph.entry.words.now))) ≤ max_listing }
{
    let mut words = [0u32; MachineTable::WORDS];
    let _ = synthesis::table::synthesise(graph.words, &mut words);
    let table = MachineWords { words: &words };
    list_machine(ListedMachine { table }, out)
}

// The listing of a text, or the line of its refusal. An output that is too short keeps its bytes; one of 4,096 bytes never is.
pub fn list(text: &[u8], out: &mut [u8]) -> Result<u32, ShortOutput>
    ensures value { result ≡ list_answer text.now out.old }
    ensures out_after { out.new ≡ list_bytes text.now out.old }
    ensures text_len_bound { length (listing text.now) ≤ max_listing }
{
    let mut graph = [0u32; GraphTable::WORDS];
    match cfg_text::read_text(text, &mut graph) {
        Err(error) => list_refusal(error, out),
        Ok(()) => list_graph(AdmittedGraph { words: &graph }, out),
    }
}
