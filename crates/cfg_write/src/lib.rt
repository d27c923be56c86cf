// Writing a graph table as text.
#![tactic(auto)]

ghost use Rattle.std.specs.Prelude.{◌≡◌, ◌≤◌, ◌<◌, ◌^◌, map, length};
ghost use Rattle.runs.specs.Lists.{up_from};
ghost use Rattle.cfg.specs.Layout.{max_blocks, max_instructions};
ghost use Rattle.cfg.specs.Table.{block_count, block_at, graph_of};
ghost use Rattle.cfg_write.specs.Put.{Put, Wrote, lines_text};
ghost use Rattle.cfg_write.specs.Write.{block_lines, lines_from, text_of, write_answer, write_bytes};

use cfg::graph::AdmittedGraph;
use cfg::{Block, GraphTable};
use line::Writer;
use refusal::Refusal;

pub mod line; // line.rt: the bytes of one line

// Why nothing was written, and the length that a short output would need, else 0, as C is given it (gutkavu_write).
#[derive(Clone, Copy, Debug, PartialEq, Eq)]
pub struct WriteError {
    pub refusal: Refusal,
    pub length: u32,
}

// The lines of block n.
fn put_block(writer: &mut Writer, n: usize, block: Block)
    requires { (writer.old.at < 2 ^ 16) × (n < max_blocks) × (block.count ≤ max_instructions) }
    ensures { Wrote 640 writer.old writer.new (lines_text (block_lines n block)) }
{
    writer.numbered(b"block", n as u32);
    for instruction in &block.instructions[..block.count as usize] {
        writer.instruction(*instruction);
    }
    writer.ending(block.ending);
}

// The lines of all blocks.
fn put_blocks(writer: &mut Writer, graph: AdmittedGraph)
    requires { writer.old.at ≤ 64 }
    ensures { Wrote 40960 writer.old writer.new (lines_text (lines_from 0 (map (block_at graph.entry.words.now) (up_from 0 (block_count graph.entry.words.now))))) }
{
    for n in 0..graph.blocks() as usize {
        put_block(writer, n, graph.block(n));
    }
}

// The whole text of an admitted table.
fn put_text(out: &mut [u8], graph: AdmittedGraph) -> usize
    ensures { Put 41024 out.old out.new 0 (text_of (graph_of graph.entry.words.now)) result }
{
    let mut writer = Writer::new(out);
    writer.graph_line(graph.blocks(), graph.registers());
    put_blocks(&mut writer, graph);
    writer.at
}

impl From<Refusal> for WriteError {
    ghost from_gives = { λ refusal error. error ≡ record { refusal = refusal; length = 0 } };

    fn from(refusal: Refusal) -> WriteError {
        WriteError { refusal, length: 0 }
    }
}

// "Write graph table as text", by way of a buffer that any text fits in: where the output is short, it stays as it was.
pub fn write_text(table: &[u32], out: &mut [u8]) -> Result<u32, WriteError>
    ensures value { result ≡ write_answer table.now out.old }
    ensures out_after { out.new ≡ write_bytes table.now out.old }
{
    let graph = AdmittedGraph::admit(table)?;
    let mut text = [0u8; GraphTable::TEXT];
    let n = put_text(&mut text, graph);
    if out.len() < n {
        return Err(WriteError {
            refusal: Refusal::ShortOutput,
            length: n as u32,
        });
    }
    out[..n].copy_from_slice(&text[..n]);
    Ok(n as u32)
}
