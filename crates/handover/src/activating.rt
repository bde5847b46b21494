// Activate.
ghost use Rattle.std.specs.Prelude.{◌≡◌, []};
ghost use Rattle.refusals.specs.Order.{first};
ghost use Rattle.refusals.specs.Refused.{answer_of};
ghost use Rattle.rules.specs.Outcomes.{Lent, outcome, told};
ghost use Rattle.rules.specs.Activate.{handover_tests, acting, activating};
ghost use Rattle.handover.specs.Asked.{activate_refusal, Shown};

use crate::asking::Handover;
use crate::descent::derived;
use entries::check_attended;
use record::ACTIVE;
use refusals::Refusal;
use rules::{Done, Head};

// Tests what the bundle shows.
fn check_shown(k: Handover) -> Result<(), Refusal>
    requires { Shown k.head k.table.now k.previous.now k.own.now k.bundle.now }
    ensures { answer_of result
        ≡ first (handover_tests (record { head = k.entry.head; table = k.entry.table.now; area = [] })
        k.entry.previous.now k.entry.own.now k.entry.bundle.now) }
{
    check_attended(k.previous, k.own, k.bundle)?;
    if !derived(k.table, usize::from(k.head.count), k.bundle) {
        return Err(Refusal::NotDerived);
    }
    Ok(())
}

fn check_activate(k: Handover) -> Result<(), Refusal>
    ensures { answer_of result
        ≡ activate_refusal (record { head = k.entry.head; table = k.entry.table.now; area = [] })
        k.entry.previous.now k.entry.own.now k.entry.bundle.now }
{
    k.check(&[], 0)?;
    check_shown(k)
}

fn acting(head: Head) -> Head
    ensures { result ≡ acting head }
{
    Head {
        status: ACTIVE,
        ..head
    }
}

// A prepared keeper becomes active: majorities of both racks stand behind its roll.
pub fn activate(
    head: Head,
    table: &[u8],
    previous: &[u8],
    own: &[u8],
    s: &[u8],
) -> Result<Done, Refusal>
    ensures { outcome (told head result) table.now [] ≡ activating (record { head = head; table = table.now; area = [] }) previous.now own.now s.now }
{
    check_activate(Handover {
        head,
        table,
        previous,
        own,
        bundle: s,
    })?;
    Ok(Done {
        written: 0,
        repeat: false,
        head: acting(head),
    })
}
