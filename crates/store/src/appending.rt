// The append.
ghost use Rattle.std.specs.Prelude.{◌≡◌};
ghost use Rattle.refusals.specs.Refused.{answer_of};
ghost use Rattle.refusals.specs.Order.{first};
ghost use Rattle.store.specs.Append.{ready_tests, order_tests, shown, appending};
ghost use Rattle.store.specs.Answers.{height_of, appended_told};

use crate::scan::{first_unused, has_damaged, is_area, newest};
use crate::{Answer, Place};
use cabinet::{MOST_TEXT, made_block};
use checks::BLOCK;
use octets::{copy_at, is_zero};
use refusals::Refusal;
use rows::{TOP, appended, is_next};

// What is refused before the heights are looked at.
#[tactic(auto, unfolding(refusals::specs::Order::first, crate::specs::Append::ready_tests, crate::specs::Area::holds_damaged, crate::specs::Area::blocks))]
fn check_ready(area: &[u8], label: &[u8], text: &[u8]) -> Result<(), Refusal>
    ensures answer { answer_of result ≡ first (ready_tests area.now label.now text.now) }
    ensures height { height_of result ≡ 0 }
{
    if MOST_TEXT < text.len() {
        return Err(Refusal::TextTooLong);
    }
    if !is_area(area) {
        return Err(Refusal::RecordNotSound);
    }
    if has_damaged(area, area.len() / BLOCK) {
        return Err(Refusal::RecordNotSound);
    }
    if is_zero(label) {
        return Err(Refusal::LabelZero);
    }
    Ok(())
}

// What is refused of the heights.
#[tactic(auto, unfolding(refusals::specs::Order::first, crate::specs::Append::order_tests, crate::specs::Append::shown))]
fn check_order(expected: u64, height: u64) -> Result<(), Refusal>
    ensures answer { answer_of result ≡ first (order_tests expected height) }
    ensures height { height_of result ≡ shown (answer_of result) height }
{
    if !is_next(expected, height) {
        return Err(Refusal::OutOfOrder { height });
    }
    if height == TOP {
        return Err(Refusal::HeightAtTop);
    }
    Ok(())
}

// Appends a text at the height that the label has next.
fn append(area: &mut [u8], asked: Place, text: &[u8]) -> Result<(), Refusal>
    ensures { appended_told result area.new ≡ appending area.old asked.label asked.height text.now }
{
    check_ready(area, &asked.label, text)?;
    let n = area.len() / BLOCK;
    let found = newest(area, &asked.label, n);
    check_order(asked.height, found.height)?;
    let Some(at) = first_unused(area, n) else {
        return Err(Refusal::StoreFull);
    };
    let digest = hash::digest(text);
    let tail = appended(found.tail, digest);
    let block = made_block(asked.label, asked.height, digest, tail, text);
    copy_at(area, BLOCK * at, &block);
    Ok(())
}

// Appends a text at the height that the label has next.
#[unsafe(no_mangle)]
pub extern "C" fn mahqurith_store_append(area: &mut [u8], asked: Place, text: &[u8]) -> Answer
    ensures { record { number = result.number; written = result.written; height = result.height; area = area.new }
        ≡ appending area.old asked.label asked.height text.now }
{
    match append(area, asked, text) {
        Ok(()) => Answer::accepted(0),
        Err(refusal) => Answer::from(refusal),
    }
}
