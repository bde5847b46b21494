// The last words of a keeper: its finalise statement, and the blocks of its roll behind it.
ghost use Rattle.std.specs.Prelude.{◌≡◌, true, ◌≤◌, length};
ghost use Rattle.octets.specs.Strings.{put};
ghost use Rattle.rows.specs.Table.{rows_fit};
ghost use Rattle.rows.specs.Digests.{roll_digest};
ghost use Rattle.statement.specs.declared.Kind.TheVariants.{Finalise};
ghost use Rattle.statement.specs.Cut.{handover_of};
ghost use Rattle.rules.specs.Finalise.{finalise_size, last_words};

use record::give;
use roll::{put_roll, roll_bytes};
use rows::roll_digest;
use rules::Head;
use statement::{HANDOVER_SIZE, Kind, Statement, handover_statement};

// The finalise statement of a keeper with this head and table.
fn last_statement(head: Head, table: &[u8]) -> Statement
    ensures { result ≡ handover_of Finalise head.identity head.own head.next (roll_digest head.count table.now) }
{
    let roll = roll_digest(usize::from(head.count), table);
    handover_statement(Kind::Finalise, head.identity, head.own, head.next, roll)
}

// Writes the last words as the first bytes of an area; gives how many bytes.
pub fn speak(head: Head, table: &[u8], area: &mut [u8]) -> usize
    requires { (rows_fit head.count table.now ≡ true) × (finalise_size ≤ length area.old) }
    ensures { (area.new ≡ put area.old 0 (last_words head table.now)) × (result ≡ length (last_words head table.now)) }
{
    give(last_statement(head, table), area);
    put_roll(head.count, table, &mut area[HANDOVER_SIZE..]);
    HANDOVER_SIZE + roll_bytes(head.count)
}
