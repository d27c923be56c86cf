// The blocks of each state as a chain, so that a cycle looks at no other blocks. Chains are made once for a run.
ghost use Rattle.fsmd.specs.Chains.{Chained};

use super::MachineTable;
use super::table::MachineWords;

// The first block of each state, then for each block the next one of its state. The last block comes first, so that each is put before
// those of its state that are higher.
pub fn chains_of(table: MachineWords) -> [u8; MachineTable::CHAINS]
    ensures { Chained table.entry.words.now 0 result }
{
    // 64, which is no block, ends a chain: a byte and no Option, so that one test ends the loop along it.
    let mut chains = [64u8; MachineTable::CHAINS];
    for b in (0..MachineTable::BLOCKS).rev() {
        let k = table.words[MachineTable::BLOCK_STATES + b] as usize;
        if k < MachineTable::STATES {
            chains[MachineTable::STATES + b] = chains[k];
            chains[k] = b as u8;
        }
    }
    chains
}
