// Verdicts on an append that a keeper of a rack of three gave.
use crate::keepers::{enter, founded, with_ledgers};
use crate::people::{THREE, label, rack_of_three};
use desk::{Finding, NONCE, Question};
use rows::TABLE;
use rules::Head;
use statement::{APPEND, RECEIPT_SIZE};
use std::io::Result;

// The verdict on a first append, with these signers.
fn verdict(signers: &[u8]) -> Finding {
    let rack = rack_of_three();
    let mut table = [0u8; TABLE];
    let head = with_ledgers(founded(&mut table, &rack), &mut table, 0, 1);
    let mut receipt = [0u8; RECEIPT_SIZE];
    let _refused = enter(head, &mut table, 1, &mut receipt);
    judge(head, &rack, &receipt, signers)
}

fn judge(head: Head, rack: &[u8; THREE], receipt: &[u8; RECEIPT_SIZE], signers: &[u8]) -> Finding {
    let identity = head.identity;
    let question = Question {
        identity,
        label: label(1),
        nonce: [0u8; NONCE],
        kind: APPEND,
    };
    desk::verdict(question, rack, receipt, signers)
}

// Signers by position and marks; the marks say that the key is attested and its signature valid.
pub fn signers(rt: &impl Print) -> Result<()> {
    let twice = verdict(&[1, 3, 1, 3]);
    println!(rt; "rack of 3, signer positions 1, 1: {}", twice.number)?;
    let one = verdict(&[1, 3]);
    println!(rt; "one valid signer: {}", one.number)?;
    let two = verdict(&[0, 3, 1, 3]);
    println!(rt;
        "two valid signers: {} with height {}",
        two.number, two.height
    )
}
