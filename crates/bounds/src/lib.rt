// The bound of a node: the constant after its pass, and the shifts that led there.
#![tactic(auto)]

pub mod noting;

ghost use Rattle.std.specs.Prelude.{true, ◌≡◌, ◌≤◌, length};
ghost use Rattle.costs.specs.Net.{entries};
ghost use Rattle.shifts.specs.Ties.Sites.{net_at};
ghost use Rattle.bounds.specs.Ties.Noting.{notes_most, pass_at, TellsWhole};

use crate::noting::{Noted, pass_noting};
use passes::passing::pass_over;
use shifts::moves::Move;
use shifts::sites::Site;
use tables::copy_in;

// The constant after the pass at a node, from the held costs; where a record is asked for, its shifts are noted.
pub fn bound_at(
    work: &mut [u64],
    notes: &mut [Move],
    held: &[u64],
    site: Site,
    asked: bool,
) -> Noted
    requires roomy { (entries (net_at site) ≤ length work.old) × (entries (net_at site) ≤ length held.now) }
    requires notes_room { asked ≡ true → notes_most ≤ length notes.old }
    ensures { TellsWhole asked (pass_at site.entry held.now) notes.new result }
{
    copy_in(work, held, site.judged.entries);
    if asked {
        return pass_noting(work, notes, site);
    }
    Noted {
        constant: pass_over(work, site),
        count: 0,
    }
}
