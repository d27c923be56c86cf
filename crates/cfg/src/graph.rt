// An admitted graph table as a type, and the test that makes one of a table.
ghost use Rattle.std.specs.Prelude.{◌≡◌, true, ◌≤◌, ◌<◌, length, Some, MatchResult};
ghost use Rattle.cfg.specs.Layout.{max_blocks, graph_words};
ghost use Rattle.cfg.specs.Graph.{wordless_graph};
ghost use Rattle.cfg.specs.Table.{block_count, graph_register_count, block_at, graph_of, admitted_graph};
ghost use Rattle.cfg.specs.Admission.{table_refusal, wordless_table_refusal};

use crate::{Block, Ending, GraphTable, admission, decode};
use refusal::Refusal;

// The words of a graph table that passed.
#[derive(Clone, Copy)]
pub struct AdmittedGraph<'a> {
    pub words: &'a [u32],
    pub ghost long: { graph_words ≤ length words.now },
    pub ghost admitted: { admitted_graph words.now ≡ true },
}

impl<'a> AdmittedGraph<'a> {
    pub fn admit(table: &'a [u32]) -> Result<AdmittedGraph<'a>, Refusal>
        ensures { MatchResult result (λ graph. graph.words.now ≡ table.now) (λ refusal. table_refusal table.now ≡ Some refusal) }
    {
        if table.len() < GraphTable::WORDS {
            return Err(Refusal::ShortBuffer);
        }
        if !admission::is_admitted(table) {
            return Err(Refusal::BadGraph);
        }
        Ok(AdmittedGraph { words: table })
    }

    // The same where no words are given: a table that passes is read once.
    pub fn admit_wordless(table: &'a [u32]) -> Result<AdmittedGraph<'a>, Refusal>
        ensures { MatchResult result (λ graph. (graph.words.now ≡ table.now) × (wordless_graph (graph_of table.now) ≡ true)) (λ refusal. wordless_table_refusal table.now ≡ Some refusal) }
    {
        if table.len() < GraphTable::WORDS {
            return Err(Refusal::ShortBuffer);
        }
        if admission::passes_with(table, false) {
            return Ok(AdmittedGraph { words: table });
        }
        if admission::is_admitted(table) {
            Err(Refusal::NoWords)
        } else {
            Err(Refusal::BadGraph)
        }
    }

    pub fn blocks(self) -> u32
        ensures { result ≡ block_count self.entry.words.now }
    {
        self.words[GraphTable::BLOCK_COUNT]
    }

    pub fn registers(self) -> u32
        ensures { result ≡ graph_register_count self.entry.words.now }
    {
        self.words[GraphTable::REGISTER_COUNT]
    }

    pub fn block(self, n: usize) -> Block
        requires { n < max_blocks }
        ensures { result ≡ block_at self.entry.words.now n }
    {
        decode::block_at(self.words, n)
    }

    #[tactic(auto, unfolding(crate::specs::Table::block_at))]
    pub fn ending(self, n: usize) -> Ending
        requires { n < max_blocks }
        ensures { result ≡ (block_at self.entry.words.now n).ending }
    {
        decode::ending_at(
            self.words,
            GraphTable::HEAD + Block::WORDS * n + Block::ENDING,
        )
    }
}
