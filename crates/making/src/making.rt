// New.
ghost use Rattle.std.specs.Prelude.{◌≡◌, ◌<◌, IfOk};
ghost use Rattle.refusals.specs.Refused.{answer_of};
ghost use Rattle.rows.specs.Search.{find};
ghost use Rattle.rules.specs.Outcomes.{Lent, outcome, told};
ghost use Rattle.rules.specs.Rows.{row_number};
ghost use Rattle.rules.specs.New.{one_more, new_refusal, making};

use crate::companies::is_company_full;
use crate::table::add_row;
use ledgers::receipt;
use octets::is_zero;
use record::{ACTIVE, check_ready, give};
use refusals::Refusal;
use rows::{MOST, find};
use rules::{Done, Head};
use statement::{Kind, RECEIPT_SIZE};

fn one_more(head: Head) -> Head
    requires { head.count < 255 }
    ensures { result ≡ one_more head }
{
    Head {
        count: head.count + 1,
        ..head
    }
}

// The number of the new row, or what refuses it first.
#[tactic(auto, using(crate::proofs::Makes::unready, crate::proofs::Makes::labelled), unfolding(refusals::specs::Order::first))]
fn check_new(head: Head, table: &[u8], label: [u8; 16], area: &[u8]) -> Result<usize, Refusal>
    ensures answer { answer_of result ≡ new_refusal (record { head = head; table = table.now; area = area.now }) label }
    ensures place { IfOk result (λ i. i ≡ row_number (find head.count table.now label)) }
{
    check_ready(head, table, area, RECEIPT_SIZE, ACTIVE, Refusal::NotActive)?;
    if is_zero(&label) {
        return Err(Refusal::LabelZero);
    }
    let Err(place) = find(table, head.count as usize, label) else {
        return Err(Refusal::LedgerExists);
    };
    if is_company_full(table, head.count as usize, label) {
        return Err(Refusal::CompanyFull);
    }
    if head.count as usize == MOST {
        return Err(Refusal::TableFull);
    }
    Ok(place)
}

// A ledger more, at height 0.
pub fn new(head: Head, table: &mut [u8], label: [u8; 16], area: &mut [u8]) -> Result<Done, Refusal>
    ensures { outcome (told head result) table.new area.new
        ≡ making (record { head = head; table = table.old; area = area.old }) label }
{
    let place = check_new(head, table, label, area)?;
    add_row(table, place, label);
    give(receipt(head, Kind::New, label, [0; 32]), area);
    Ok(Done {
        written: RECEIPT_SIZE,
        repeat: false,
        head: one_more(head),
    })
}
