// Reading a graph's text into its table. The text is read from front to back into a local table, which is copied at the end.
#![tactic(auto)]

ghost use Rattle.std.specs.Prelude.{◌≡◌, List, ℕ, ◌≤◌, length};
ghost use Rattle.cfg.specs.Table.{ending_words_of};
ghost use Rattle.cfg_text.specs.Walk.{Progress, start, between, inside, all_below, instruction_registers, closed, joined, next, finish};
ghost use Rattle.cfg_text.specs.Read.{max_text, read_text, read_answer, read_words};
ghost use Rattle.cfg_text.specs.ReadSteps.{filled, StandsAfter, Advances, AnswersReading, ending_check, FewBlocks};

use cfg::{Block, Ending, GraphTable, Instruction};
use cfg_line::Line;
use refusal::Refusal;
use state::{BlocksRead, OpenBlock, ReadState};
use word::Code;

pub mod state; // state.rt: where reading stands

// Why a text is refused, and the line at fault: 0 where no line is, as C is given it (gutkavu_read).
#[derive(Clone, Copy, Debug, PartialEq, Eq)]
pub struct ReadError {
    pub refusal: Refusal,
    pub line: u32,
}

// Its registers are below `registers`; the first operand of a set is a literal.
fn registers_below(i: Instruction, registers: u32) -> bool
    ensures { result ≡ all_below registers (instruction_registers i) }
{
    if registers <= i.d {
        return false;
    }
    if i.code == Code::SET {
        return true;
    }
    // How many operands the code reads: a count, and no kind.
    match word::arity(i.code) {
        0 => true,
        1 => i.a < registers,
        _ => i.a < registers && i.b < registers,
    }
}

// Where the graph line is due.
#[tactic(auto, using(crate::proofs::Stores::graph_words_lem, crate::proofs::Otherwise::not_graph), unfolding(crate::specs::Walk::next))]
fn at_start(line: Line, words: &mut [u32; GraphTable::WORDS]) -> Result<ReadState, Refusal>
    requires { FewBlocks line }
    ensures { words.old ≡ filled start → Advances result words.new (next start line) }
{
    let Line::Graph(blocks, registers) = line else {
        return Err(Refusal::NotDue);
    };
    words[GraphTable::BLOCK_COUNT] = blocks;
    words[GraphTable::REGISTER_COUNT] = registers;
    Ok(ReadState::Between(BlocksRead {
        blocks,
        registers,
        done: 0,
    }))
}

// Where a block line is due, that of the next block below B.
#[tactic(auto, using(crate::proofs::Otherwise::not_block, crate::proofs::Steps::other_block, crate::proofs::Steps::past_block), unfolding(crate::specs::Walk::next))]
fn at_block(before: BlocksRead, line: Line) -> Result<ReadState, Refusal>
    ensures { (b r : ℕ) (bs : List Block) (w : List ℕ)
        → StandsAfter (ReadState.Between before) w (between b r bs)
        → Advances result w (next (between b r bs) line) }
{
    let Line::Block(k) = line else {
        return Err(Refusal::NotDue);
    };
    if k != before.done || before.blocks <= k {
        return Err(Refusal::NotDue);
    }
    let count = 0;
    Ok(ReadState::Inside(OpenBlock { before, count }))
}

// An instruction joins the block, which has room for eight.
fn join(
    block: OpenBlock,
    i: Instruction,
    words: &mut [u32; GraphTable::WORDS],
) -> Result<ReadState, Refusal>
    ensures { (b r : ℕ) (bs : List Block) (is : List Instruction)
        → StandsAfter (ReadState.Inside block) words.old (inside b r bs is)
        → Advances result words.new (joined i b r bs is) }
{
    let OpenBlock { before, count } = block;
    if Block::INSTRUCTIONS <= count as usize {
        return Err(Refusal::NotDue);
    }
    if !registers_below(i, before.registers) {
        return Err(Refusal::NoRegister);
    }
    let start = GraphTable::HEAD + Block::WORDS * before.done as usize;
    let at = start + Block::CODE + Instruction::WORDS * count as usize;
    words[at..at + Instruction::WORDS].copy_from_slice(&[i.code, i.d, i.a, i.b]);
    let count = count + 1;
    Ok(ReadState::Inside(OpenBlock { before, count }))
}

// An ending's registers are below R, and then its targets below B.
fn check(before: BlocksRead, ending: Ending) -> Result<(), Refusal>
    ensures { result ≡ ending_check before.blocks before.registers ending }
{
    match ending {
        Ending::Goto(t) => {
            if before.blocks <= t {
                return Err(Refusal::NoTarget);
            }
        }
        Ending::Ite(c, t, f) => {
            if before.registers <= c.a || before.registers <= c.b {
                return Err(Refusal::NoRegister);
            }
            if before.blocks <= t || before.blocks <= f {
                return Err(Refusal::NoTarget);
            }
        }
        Ending::Halt => {}
    }
    Ok(())
}

// Kind, comparison, a, b, t, f.
fn ending_words(ending: Ending) -> [u32; Ending::WORDS]
    ensures { result ≡ ending_words_of ending }
{
    match ending {
        Ending::Goto(t) => [Ending::GOTO, 0, 0, 0, t, 0],
        Ending::Ite(c, t, f) => [Ending::ITE, c.comparison.code(), c.a, c.b, t, f],
        Ending::Halt => [Ending::HALT, 0, 0, 0, 0, 0],
    }
}

// The block's count and its ending. The next block line is due.
fn close(
    block: OpenBlock,
    ending: Ending,
    words: &mut [u32; GraphTable::WORDS],
) -> Result<ReadState, Refusal>
    ensures { (b r : ℕ) (bs : List Block) (is : List Instruction)
        → StandsAfter (ReadState.Inside block) words.old (inside b r bs is)
        → Advances result words.new (closed ending b r bs is) }
{
    let OpenBlock { before, count } = block;
    check(before, ending)?;
    let start = GraphTable::HEAD + Block::WORDS * before.done as usize;
    words[start] = count;
    let at = start + Block::ENDING;
    words[at..at + Ending::WORDS].copy_from_slice(&ending_words(ending));
    Ok(ReadState::Between(BlocksRead {
        blocks: before.blocks,
        registers: before.registers,
        done: before.done + 1,
    }))
}

// Where an instruction or an ending is due.
#[tactic(auto, unfolding(crate::specs::Walk::next))]
fn in_block(
    block: OpenBlock,
    line: Line,
    words: &mut [u32; GraphTable::WORDS],
) -> Result<ReadState, Refusal>
    ensures { (b r : ℕ) (bs : List Block) (is : List Instruction)
        → StandsAfter (ReadState.Inside block) words.old (inside b r bs is)
        → Advances result words.new (next (inside b r bs is) line) }
{
    match line {
        Line::Instruction(i) => join(block, i, words),
        Line::Goto(t) => close(block, Ending::Goto(t), words),
        Line::Ite(c, t, f) => close(block, Ending::Ite(c, t, f), words),
        Line::Halt => close(block, Ending::Halt, words),
        Line::Graph(_, _) | Line::Block(_) => Err(Refusal::NotDue),
    }
}

// A line, where it is due.
fn step(
    p: ReadState,
    line: Line,
    words: &mut [u32; GraphTable::WORDS],
) -> Result<ReadState, Refusal>
    requires { FewBlocks line }
    ensures { (q : Progress) → StandsAfter p words.old q → Advances result words.new (next q line) }
{
    match p {
        ReadState::Start => at_start(line, words),
        ReadState::Between(before) => at_block(before, line),
        ReadState::Inside(block) => in_block(block, line, words),
    }
}

// The text has ended before this line.
fn at_end(p: ReadState, line: u32) -> Result<(), ReadError>
    ensures { (q : Progress) (w : List ℕ) → StandsAfter p w q → AnswersReading result w (finish q line) }
{
    match p {
        ReadState::Between(before) if before.done == before.blocks => Ok(()),
        _ => Err(ReadError {
            refusal: Refusal::NotDue,
            line,
        }),
    }
}

// The lines in order, each stored.
fn read_lines(text: &[u8], words: &mut [u32; GraphTable::WORDS]) -> Result<(), ReadError>
    requires { (length text.now ≤ max_text) × (words.old ≡ filled start) }
    ensures { AnswersReading result words.new (read_text text.now) }
{
    let mut p = ReadState::Start;
    let mut at = 0;
    let mut line: u32 = 1;
    // A `while`: where a line begins is known once the one before is read.
    while at < text.len() {
        let Some(parsed) = cfg_line::parse_line(text, at) else {
            let refusal = Refusal::NoForm;
            return Err(ReadError { refusal, line });
        };
        p = step(p, parsed.line, words).map_err(|refusal| ReadError { refusal, line })?;
        at = parsed.next;
        line += 1;
    }
    at_end(p, line)
}

// On a refusal the table holds what it held; words past its length are neither read nor changed.
pub fn read_text(text: &[u8], table: &mut [u32]) -> Result<(), ReadError>
    ensures value { result ≡ read_answer text.now table.old }
    ensures table_after { table.new ≡ read_words text.now table.old }
{
    if GraphTable::TEXT < text.len() {
        return Err(ReadError {
            refusal: Refusal::LongText,
            line: 0,
        });
    }
    if table.len() < GraphTable::WORDS {
        return Err(ReadError {
            refusal: Refusal::ShortBuffer,
            line: 0,
        });
    }
    let mut words = [0; GraphTable::WORDS];
    read_lines(text, &mut words)?;
    table[..GraphTable::WORDS].copy_from_slice(&words);
    Ok(())
}
