// The lines of a listing.
ghost use Rattle.std.specs.Prelude.{[], ◌∷◌, ◌≤◌, ◌<◌, ◌^◌, length};
ghost use Rattle.decimal.specs.Decimal.{decimal_of};
ghost use Rattle.delimited.specs.Parts.{bytes};
ghost use Rattle.cfg_write.specs.Put.{Put, Wrote};
ghost use Rattle.listing.specs.Listing.{listing_line, refused_line};

use cfg_write::line::Writer;

// How far the writer may be stands in each contract: every byte moves it.
// A name and two numbers.
fn put_named(writer: &mut Writer, name: &[u8], first: u32, second: u32)
    requires { (writer.old.at < 2 ^ 16) × (length name.now ≤ 8) }
    ensures { Wrote 31 writer.old writer.new (listing_line (name.now ∷ decimal_of first ∷ decimal_of second ∷ [])) }
{
    writer.bytes(name);
    writer.number(first);
    writer.number(second);
    writer.line_feed();
}

// The line of a refusal, from the start of the buffer on, and its length.
#[tactic(auto, unfolding(crate::specs::Listing::refused_line))]
pub fn put_refused(out: &mut [u8], number: u32, line: u32) -> usize
    ensures { Put 31 out.old out.new 0 (refused_line number line) result }
{
    let mut writer = Writer::new(out);
    put_named(&mut writer, b"refused", number, line);
    writer.at
}

// The first line: states, wires in all.
pub(crate) fn put_head(writer: &mut Writer, states: u32, wires: u32)
    requires { writer.old.at < 2 ^ 16 }
    ensures { Wrote 31 writer.old writer.new (listing_line (bytes "states" ∷ decimal_of states ∷ decimal_of wires ∷ [])) }
{
    put_named(writer, b"states", states, wires);
}

// The line of a state.
pub(crate) fn put_state(writer: &mut Writer, state: u32, starter: u32, blocks: u32, wires: u32)
    requires { writer.old.at < 2 ^ 16 }
    ensures { Wrote 44 writer.old writer.new (listing_line (decimal_of state ∷ decimal_of starter ∷ decimal_of blocks ∷ decimal_of wires ∷ [])) }
{
    writer.decimal(state);
    writer.number(starter);
    writer.number(blocks);
    writer.number(wires);
    writer.line_feed();
}
