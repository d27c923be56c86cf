// The room of a cycle: the words that references read, the registers and then the state's wires.
ghost use Rattle.std.specs.Prelude.{◌≡◌, ◌++◌, ◌≤◌, take, drop, length};
ghost use Rattle.fsmd.specs.Layout.{max_registers};
ghost use Rattle.fsmd.specs.Clock.{read_in};

use super::MachineTable;
use word::Registers;

#[derive(Drop)]
pub struct Room<const N: usize> {
    pub words: [u32; N],
    pub ghost whole: { length words ≡ N },
    pub ghost registers_fit: { max_registers ≤ N },
}

impl<const N: usize> Room<N> {
    // A room that begins with these registers.
    pub fn of(registers: Registers) -> Room<N>
        requires { max_registers ≤ N }
        ensures { take max_registers result.words ≡ registers.words }
    {
        // Made where it is answered: a list filled beside it would be copied into it.
        let mut room = Room { words: [0; N] };
        runs::store(&mut room.words, registers);
        room
    }

    // What reference x reads, modulo the number of words: that costs no branch, and where it is a power of two no division. What an admitted
    // machine reads lies in the room, and the rest does not matter.
    pub fn read(&self, x: u32) -> u32
        ensures { result ≡ read_in self.now.words x }
    {
        self.words[x as usize % N]
    }

    // The registers as the first words, where those from `count` on are there already. Four at a time, and not the whole file: few branches,
    // and no more words than a small machine needs; a copy of the file took a run of one register 1.2 times as long.
    pub fn set_registers(&mut self, registers: Registers, count: usize)
        requires { drop count (take max_registers self.old.words) ≡ drop count registers.words }
        ensures { self.new.words ≡ registers.words ++ drop max_registers self.old.words }
    {
        for quarter in 0..MachineTable::REGISTERS / 4 {
            let at = 4 * quarter;
            if count <= at {
                return;
            }
            self.words[at] = registers.words[at];
            self.words[at + 1] = registers.words[at + 1];
            self.words[at + 2] = registers.words[at + 2];
            self.words[at + 3] = registers.words[at + 3];
        }
    }
}
