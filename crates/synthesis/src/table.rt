// The machine table of an admitted graph: its head, then the wires and the record of one state after another, then the arrivals.
ghost use Rattle.std.specs.Prelude.{◌≡◌, [], ◌∷◌, ◌++◌, ◌+◌, ◌-◌, ◌<◌, ◌≤◌, length, take, replicate};
ghost use Rattle.std.proofs.lemmas.List.Edits.{sets};
ghost use Rattle.cfg.specs.Table.{graph_of};
ghost use Rattle.fsmd.specs.Layout.{max_states, max_blocks, max_registers, max_wires, record_words, records_offset, arrivals_offset, machine_words};
ghost use Rattle.fsmd.specs.Machine.{wire_count};
ghost use Rattle.fsmd.specs.Touch.{touch_word};
ghost use Rattle.fsmd.specs.Table.{machine_table_of};
ghost use Rattle.synthesis.specs.Synthesis.{machine, synthesis_answer, synthesis_words};
ghost use Rattle.synthesis.specs.StateWords.{with_states};
ghost use Rattle.synthesis.specs.Plans.{Prepared, states_until, arrivals_until, Written};

use cfg::graph::AdmittedGraph;
use fsmd::touch::touch_word;
use fsmd::{MachineTable, Wire};
use grouping::Grouping;
use refusal::Refusal;
use state::Exit;
use state::edges::Edges;
use state::groups::Groups;

// What the states are made of: the graph, its successors and its grouping.
#[derive(Drop)]
struct Plan<'a> {
    graph: AdmittedGraph<'a>,
    successors: grouping::edges::Edges,
    grouping: Grouping,
}

// The starters as they stand in a table: 0 behind them.
fn starter_bytes(starters: &[u8]) -> [u8; MachineTable::STATES]
    requires { length starters.now ≤ max_states }
    ensures { result ≡ starters.now ++ replicate (max_states - length starters.now) 0 }
{
    let mut bytes = [0; MachineTable::STATES];
    bytes[..starters.len()].copy_from_slice(starters);
    bytes
}

// The words before the records; every other word before the arrivals becomes 0.
fn write_head(table: &mut [u32], count: u32, registers: u32, starters: &[u8], states: &[u8])
    requires { (length table.old ≡ arrivals_offset) × (length starters.now ≡ max_blocks) × (length states.now ≡ max_blocks) }
    ensures { table.new ≡ with_states (count ∷ registers ∷ (starters.now ++ states.now)) [] }
{
    table.fill(0);
    table[MachineTable::STATE_COUNT] = count;
    table[MachineTable::REGISTER_COUNT] = registers;
    buffers::widen_bytes(table, MachineTable::STARTERS, starters);
    buffers::widen_bytes(table, MachineTable::BLOCK_STATES, states);
}

// A state's record at word `at`. Of the sixteen next references the first `registers` are those of registers.
fn write_record(words: &mut [u32], at: usize, first: usize, made: &Exit, registers: usize)
    requires room { at + record_words ≤ length words.old }
    requires few { (first ≤ max_wires) × (made.now.wires ≤ max_wires) × (registers ≤ max_registers) }
    ensures { words.new ≡ sets words.old at (first ∷ made.now.wires ∷ made.now.next ∷ (made.now.registers ++ (touch_word (take registers made.now.registers) ∷ []))) }
{
    words[at] = first as u32;
    words[at + MachineTable::WIRE_COUNT] = made.wires as u32;
    words[at + MachineTable::NEXT_STATE] = made.next;
    words[at + MachineTable::NEXT_REGISTERS..at + MachineTable::TOUCH].copy_from_slice(
        &made.registers,
    );
    words[at + MachineTable::TOUCH] = touch_word(&made.registers[..registers]);
}

// State k, whose first wire is number `first`, and the arrivals of its blocks; the number of the next state's first wire.
// Six parameters: table, edges and arrivals are lent on to `state::make`, each for itself.
fn one_state(
    plan: &Plan,
    k: usize,
    first: usize,
    table: &mut [u32],
    edges: &mut Edges,
    arrivals: &mut [u32; MachineTable::BLOCKS],
) -> usize
    requires prepared { Prepared plan.now }
    requires below { k < length plan.now.grouping.starters }
    requires written { Written plan.now k first table.old arrivals.old }
    ensures states { table.new ≡ with_states (take records_offset table.old) (states_until plan.now (k + 1)) }
    ensures wires { result ≡ wire_count (states_until plan.now (k + 1)) }
    ensures arrivals { arrivals.new ≡ arrivals_until plan.now (k + 1) }
{
    let blocks = plan.graph.blocks() as usize;
    let starters = plan.grouping.starters.list();
    let states = &plan.grouping.states[..blocks];
    let order = placement::place(
        &plan.successors,
        plan.grouping.starters.marks(),
        states,
        k as u8,
    );
    let at = MachineTable::WIRE_WORDS + Wire::WORDS * first;
    let made = state::make(
        plan.graph,
        order.as_slice(),
        &Groups::new(starters, states),
        &mut table[at..],
        edges,
        arrivals,
    );
    let record = MachineTable::RECORDS + MachineTable::RECORD * k;
    let registers = plan.graph.registers() as usize;
    write_record(table, record, first, &made, registers);
    first + made.wires
}

// The states one after another, behind the head, and the arrivals of all blocks.
fn all_states(
    plan: &Plan,
    table: &mut [u32],
    edges: &mut Edges,
    arrivals: &mut [u32; MachineTable::BLOCKS],
)
    requires prepared { Prepared plan.now }
    requires written { Written plan.now 0 0 table.old arrivals.old }
    ensures states { table.new ≡ with_states (take records_offset table.old) (states_until plan.now (length plan.now.grouping.starters)) }
    ensures arrivals { arrivals.new ≡ arrivals_until plan.now (length plan.now.grouping.starters) }
{
    let count = plan.grouping.starters.list().len();
    let mut first = 0;
    for k in 0..count {
        let next = one_state(plan, k, first, table, edges, arrivals);
        first = next;
    }
}

// The table of an admitted graph's machine in two parts: the words before the arrivals, and the arrivals.
fn fill_parts(graph: AdmittedGraph, table: &mut [u32], arrivals: &mut [u32; MachineTable::BLOCKS])
    requires { (length table.old ≡ arrivals_offset) × (arrivals.old ≡ replicate max_blocks 0) }
    ensures { table.new ++ arrivals.new ≡ machine_table_of (machine (graph_of graph.entry.words.now)) }
{
    let plan = Plan {
        graph,
        successors: grouping::edges::edges_of(graph),
        grouping: grouping::group(graph),
    };
    let starters = plan.grouping.starters.list();
    write_head(
        table,
        starters.len() as u32,
        graph.registers(),
        &starter_bytes(starters),
        &plan.grouping.states,
    );
    // Room for the edges of one state after another.
    let mut edges = Edges::new();
    all_states(&plan, table, &mut edges, arrivals);
}

// The table of an admitted graph's machine.
fn fill(graph: AdmittedGraph, table: &mut [u32])
    requires { length table.old ≡ machine_words }
    ensures { table.new ≡ machine_table_of (machine (graph_of graph.entry.words.now)) }
{
    let mut arrivals = [0; MachineTable::BLOCKS];
    fill_parts(graph, &mut table[..MachineTable::ARRIVALS], &mut arrivals);
    let at = MachineTable::ARRIVALS;
    table[at..at + MachineTable::BLOCKS].copy_from_slice(&arrivals);
}

// The machine of a graph table into a machine table.
pub fn synthesise(graph: &[u32], machine: &mut [u32]) -> Result<(), Refusal>
    ensures { (result ≡ synthesis_answer graph.now machine.old) × (machine.new ≡ synthesis_words graph.now machine.old) }
{
    if machine.len() < MachineTable::WORDS {
        return Err(Refusal::ShortBuffer);
    }
    let admitted = AdmittedGraph::admit(graph)?;
    fill(admitted, &mut machine[..MachineTable::WORDS]);
    Ok(())
}
