// The item or an event: how many bytes it has, and the line of a fault in it.
ghost use Rattle.std.specs.Prelude.{◌≡◌, ◌≤◌, length};
ghost use Rattle.text.specs.Write.{Writes};
ghost use Rattle.sittings.specs.Windows.{fault_line, most_of};
ghost use Rattle.turns.specs.Turns.{being_read, turn_room};

use super::Part;

impl Part {
    // The most bytes that it has.
    pub(crate) fn most(self) -> usize
        ensures { result ≡ most_of (being_read self) }
    {
        match self {
            Part::Item => 12640,
            Part::Event(_) => 30,
        }
    }

    // Writes the line of a fault in it, for which a turn has room.
    pub(crate) fn write_fault(self, n: u8, out: &mut [u8], place: usize) -> Option<usize>
        ensures line { Writes out.old place (fault_line (being_read self) n) result out.new }
        ensures short { length (fault_line (being_read self) n) ≤ turn_room }
    {
        match self {
            Part::Item => text::write_number(out, place, n as u64),
            Part::Event(index) => text::write_pair(out, place, index, n as u64),
        }
    }
}
