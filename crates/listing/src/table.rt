// The listing that the words of a machine table give.
ghost use Rattle.std.specs.Prelude.{◌≡◌, ◌+◌, ◌-◌, ◌≤◌, ◌<◌, length};
ghost use Rattle.runs.specs.Lists.{occurrences};
ghost use Rattle.fsmd.specs.Layout.{max_blocks, max_states, max_wires};
ghost use Rattle.fsmd.specs.Table.{state_count};
ghost use Rattle.cfg_write.specs.Put.{Put, Wrote};
ghost use Rattle.listing.specs.Listing.{max_listing};
ghost use Rattle.listing.specs.Words.{blocks_at, wires_at, state_line_at, state_lines_at, table_listing};

use crate::lines;
use cfg_write::line::Writer;
use fsmd::MachineTable;
use fsmd::table::MachineWords;

// A table with a state or more, and no more states and wires than a machine has.
#[derive(Clone, Copy)]
pub struct ListedMachine<'a> {
    pub table: MachineWords<'a>,
    pub ghost some_state: { 1 ≤ state_count table.words.now },
    pub ghost few_states: { state_count table.words.now ≤ max_states },
    pub ghost few_wires: { wires_at table.words.now ≤ max_wires },
}

// How often k stands in some words.
fn count_of(words: &[u32], k: u32) -> u32
    requires { length words.now ≤ max_blocks }
    ensures { result ≡ occurrences k words.now }
{
    words.iter().filter(|word| k == **word).count() as u32
}

impl<'a> ListedMachine<'a> {
    // The blocks of a state.
    fn blocks(self, k: u32) -> u32
        ensures { result ≡ blocks_at self.entry.table.words.now k }
    {
        count_of(
            &self.table.words[MachineTable::BLOCK_STATES..MachineTable::RECORDS],
            k,
        )
    }

    // The wires in all: the last state's end where all do.
    fn wires(self) -> u32
        ensures { result ≡ wires_at self.entry.table.words.now }
    {
        let last = self.table.head().states as usize - 1;
        (self.table.first_wire(last) + self.table.wire_count(last)) as u32
    }

    // The line of a state.
    fn put_line(self, writer: &mut Writer, k: u32)
        requires { (k < state_count self.table.words.now) × (writer.old.at < 65536) }
        ensures { Wrote 44 writer.old writer.new (state_line_at self.entry.table.words.now k) }
    {
        let i = k as usize;
        let starter = self.table.words[MachineTable::STARTERS + i];
        let wires = self.table.wire_count(i) as u32;
        lines::put_state(writer, k, starter, self.blocks(k), wires);
    }

    // The lines of all states.
    fn put_lines(self, writer: &mut Writer)
        requires { writer.old.at ≤ 64 }
        ensures { Wrote 2816 writer.old writer.new (state_lines_at self.entry.table.words.now) }
    {
        for k in 0..self.table.head().states {
            self.put_line(writer, k);
        }
    }

    // The whole listing, from the start of the buffer on, and its length.
    pub fn put_listing(self, out: &mut [u8]) -> usize
        ensures { Put max_listing out.old out.new 0 (table_listing self.entry.table.words.now) result }
    {
        let mut writer = Writer::new(out);
        lines::put_head(&mut writer, self.table.head().states, self.wires());
        self.put_lines(&mut writer);
        writer.at
    }
}
