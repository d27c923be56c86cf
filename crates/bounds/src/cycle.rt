// One cycle over ranges: the state's wires in order, then all next registers at once.
// Lowest and highest words stand in two buffers in all of it, and no array of ranges: C lends them (gutkavu_bounds).
ghost use Rattle.std.specs.Prelude.{◌≡◌, ◌+◌, ◌≤◌, ◌++◌, map, length, take, drop};
ghost use Rattle.runs.specs.Lists.{up_from};
ghost use Rattle.fsmd.specs.Layout.{max_registers, max_wires};
ghost use Rattle.fsmd.specs.Table.{wire_at, wire_count_at};
ghost use Rattle.fsmd.specs.Clock.{Ready};
ghost use Rattle.bounds.specs.Bounds.{range_at, first_bounds, wire_range, bounded};
ghost use Rattle.bounds.specs.Cycle.{bounds_of, Cycled};

use super::Range;
use super::rules::range_of;
use fsmd::table::{MachineWords, record};
use fsmd::{MachineTable, Wire};
use word::Code;

// How many ranges there is room for: those of few wires, of more, and of all.
const FEW: usize = 64;

const MORE: usize = 512;

const ALL: usize = MachineTable::REGISTERS + MachineTable::WIRES;

// The range of reference x; past the last only 0, which an admitted machine never reads.
fn read(ranges: &[Range], x: u32) -> Range
    ensures { result ≡ range_at (bounds_of ranges.now) x }
{
    ranges.get(x as usize).copied().unwrap_or(Range::exact(0))
}

// The range of a wire.
fn wire_range(ranges: &[Range], w: Wire) -> Range
    ensures { result ≡ wire_range (range_at (bounds_of ranges.now)) w }
{
    if w.code == Code::SET {
        return Range::exact(w.a);
    }
    let a = read(ranges, w.a);
    let b = read(ranges, w.b);
    let c = read(ranges, w.c);
    range_of(w.code, a, b, c)
}

// The registers' ranges, from their lowest and their highest words.
fn load(room: &mut [Range], lowest: &[u32], highest: &[u32])
    requires room { max_registers ≤ length room.old }
    requires lowest { max_registers ≤ length lowest.now }
    requires highest { max_registers ≤ length highest.now }
    ensures { bounds_of (take max_registers room.new) ≡ first_bounds max_registers lowest.now highest.now }
// By index: of words written through `iter_mut` with `zip` a proof knows none afterwards.
{
    for i in 0..MachineTable::REGISTERS {
        room[i] = Range {
            low: lowest[i],
            high: highest[i],
        };
    }
}

// As `work` of fsmd's clock, which goes over words. Not one function: what is read, made of a wire and stored differs, and the loop alone is alike.
// The wires in order, after the sixteen registers.
fn work(room: &mut [Range], machine: MachineWords, first: usize, count: usize)
    requires wires { first + count ≤ max_wires }
    requires room { max_registers + count ≤ length room.old }
    ensures { bounds_of (take (max_registers + count) room.new) ≡ bounded (bounds_of (take max_registers room.old)) (map (wire_at machine.entry.words.now) (up_from first count)) }
{
    // By index: each range is made of those before it.
    for n in 0..count {
        let at = MachineTable::REGISTERS + n;
        room[at] = wire_range(&room[..at], machine.wire(first + n));
    }
}

// What the next registers read, by their references, as the first words of both buffers.
fn put_next(lowest: &mut [u32], highest: &mut [u32], ranges: &[Range], references: &[u32])
    requires lowest { length references.now ≤ length lowest.old }
    requires highest { length references.now ≤ length highest.old }
    ensures lowest_after { lowest.new ≡ map (λ x. (range_at (bounds_of ranges.now) x).low) references.now ++ drop (length references.now) lowest.old }
    ensures highest_after { highest.new ≡ map (λ x. (range_at (bounds_of ranges.now) x).high) references.now ++ drop (length references.now) highest.old }
{
    // By index: of words written through `iter_mut` with `zip` a proof knows none afterwards.
    for (i, x) in references.iter().enumerate() {
        let range = read(ranges, *x);
        lowest[i] = range.low;
        highest[i] = range.high;
    }
}

// One cycle of state k, in room for its registers and wires.
fn bound_in(
    room: &mut [Range],
    machine: MachineWords,
    k: usize,
    lowest: &mut [u32],
    highest: &mut [u32],
)
    requires ready { Ready machine.words.now k }
    requires room { max_registers + wire_count_at machine.words.now k ≤ length room.old }
    requires lowest { max_registers ≤ length lowest.old }
    requires highest { max_registers ≤ length highest.old }
    ensures { Cycled machine.entry.words.now k lowest.old highest.old lowest.new highest.new }
{
    let registers = machine.head().registers as usize;
    let next = record(k) + MachineTable::NEXT_REGISTERS;
    let count = machine.wire_count(k);
    load(room, lowest, highest);
    work(room, machine, machine.first_wire(k), count);
    put_next(
        lowest,
        highest,
        &room[..MachineTable::REGISTERS + count],
        &machine.words[next..next + registers],
    );
}

// The same, in room of its own for N ranges.
fn bound_within<const N: usize>(
    machine: MachineWords,
    k: usize,
    lowest: &mut [u32],
    highest: &mut [u32],
)
    requires few { N ≤ max_registers + max_wires }
    requires ready { Ready machine.words.now k }
    requires room { max_registers + wire_count_at machine.words.now k ≤ N }
    requires lowest { max_registers ≤ length lowest.old }
    requires highest { max_registers ≤ length highest.old }
    ensures { Cycled machine.entry.words.now k lowest.old highest.old lowest.new highest.new }
{
    let mut room = [Range::exact(0); N];
    bound_in(&mut room, machine, k, lowest, highest);
}

// One cycle of state k: the lowest and highest next words of the registers below R, in place of those before it. The room is cleared, so that
// one which is not much larger than needed saves time.
pub fn bound_cycle(machine: MachineWords, k: usize, lowest: &mut [u32], highest: &mut [u32])
    requires ready { Ready machine.words.now k }
    requires lowest { max_registers ≤ length lowest.old }
    requires highest { max_registers ≤ length highest.old }
    ensures { Cycled machine.entry.words.now k lowest.old highest.old lowest.new highest.new }
{
    let n = MachineTable::REGISTERS + machine.wire_count(k);
    if n <= FEW {
        bound_within::<FEW>(machine, k, lowest, highest);
    } else if n <= MORE {
        bound_within::<MORE>(machine, k, lowest, highest);
    } else {
        bound_within::<ALL>(machine, k, lowest, highest);
    }
}
